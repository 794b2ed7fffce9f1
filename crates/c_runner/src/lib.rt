// What C and Rust call to run a plan: the dispatcher's calls on memory that is lent. The state is taken from it; where the call goes through, what it returns is stored in it, and on a refusal all of it stays as lent.
// Each function is thin over the dispatcher's, and its answer is that of the definitions for every input.
#![tactic(auto)]

ghost use Rattle.std.specs.Prelude.{◌≡◌};
ghost use Rattle.definitions.specs.Dispatcher as Dispatcher;
ghost use Rattle.definitions.specs.Dispatcher.{Returns};
ghost use Rattle.c_runner.specs.Memory.{Leaves, memory, state_in, words_of};

use definitions::{Call, Dispatch, State};

// The state that the lent memory holds.
fn state_in(
    words: [u64; 4],
    tick: u32,
    start: [u32; 64],
    finish: [u32; 64],
    least: [u16; 64],
) -> State
    ensures { result ≡ state_in words tick start finish least }
{
    let [n, unbounded, started, finished] = words;
    State {
        n: n as usize,
        unbounded,
        tick,
        started,
        finished,
        start,
        finish,
        least,
    }
}

// The dispatcher's call on a state, by its arguments; the least durations are for Begin alone.
#[tactic(auto, unfolding(definitions::specs::Dispatcher::called))]
fn called(st: State, call: Call, leasts: &[u16], table: &[u32]) -> Dispatch
    ensures { Returns st (Dispatcher.called st table.now leasts.now call) result }
{
    match call {
        Call::Begin(n, unbounded) => run_calls::begin(st, n, unbounded, leasts, table),
        Call::Tick => run_calls::tick(st, table),
        Call::Finish(s) => run_calls::finish(st, s, table),
    }
}

// The words of a state.
fn words_of(st: &State) -> [u64; 4]
    ensures { result ≡ words_of st.now }
{
    [st.n as u64, st.unbounded, st.started, st.finished]
}

// What is lent as least durations beside a call that takes none.
const NO_LEASTS: [u16; 0] = [];

// Makes a call of the dispatcher on the state in the memory that is lent. Nothing is stored on a refusal.
fn perform(
    call: Call,
    words: &mut [u64; 4],
    tick: &mut u32,
    start: &mut [u32; 64],
    finish: &mut [u32; 64],
    least: &mut [u16; 64],
    map: &mut u64,
    leasts: &[u16],
    table: &[u32],
) -> u32
    ensures { Leaves (λ st. Dispatcher.called st table.now leasts.now call)
        (memory words.old tick.old start.old finish.old least.old map.old) result
        (memory words.new tick.new start.new finish.new least.new map.new) }
{
    let lent = state_in(*words, *tick, *start, *finish, *least);
    let done = called(lent, call, leasts, table);
    let code = data_numbers::status_code(done.status);
    if done.status.is_err() {
        return code;
    }
    let next = done.state;
    *words = words_of(&next);
    *tick = next.tick;
    *start = next.start;
    *finish = next.finish;
    *least = next.least;
    *map = done.map;
    code
}

// ---- the calls

// Begins a run of n steps, with the map of those that are open and the least durations, of which n are taken along.
#[tactic(auto, unfolding(definitions::specs::Dispatcher::called))]
#[unsafe(no_mangle)]
pub extern "C" fn standplan_begin(
    words: &mut [u64; 4],
    tick: &mut u32,
    start: &mut [u32; 64],
    finish: &mut [u32; 64],
    least: &mut [u16; 64],
    map: &mut u64,
    n: usize,
    unbounded: u64,
    leasts: &[u16],
    table: &[u32],
) -> u32
    ensures { Leaves (λ st. Dispatcher.begin st n unbounded leasts.now table.now)
        (memory words.old tick.old start.old finish.old least.old map.old) result
        (memory words.new tick.new start.new finish.new least.new map.new) }
{
    perform(
        Call::Begin(n, unbounded),
        words,
        tick,
        start,
        finish,
        least,
        map,
        leasts,
        table,
    )
}

// The tick grows by one.
#[tactic(auto, unfolding(definitions::specs::Dispatcher::called))]
#[unsafe(no_mangle)]
pub extern "C" fn standplan_tick(
    words: &mut [u64; 4],
    tick: &mut u32,
    start: &mut [u32; 64],
    finish: &mut [u32; 64],
    least: &mut [u16; 64],
    map: &mut u64,
    table: &[u32],
) -> u32
    ensures { Leaves (λ st. Dispatcher.tick st table.now)
        (memory words.old tick.old start.old finish.old least.old map.old) result
        (memory words.new tick.new start.new finish.new least.new map.new) }
{
    perform(
        Call::Tick,
        words,
        tick,
        start,
        finish,
        least,
        map,
        &NO_LEASTS,
        table,
    )
}

// Open step s ends at this tick.
#[tactic(auto, unfolding(definitions::specs::Dispatcher::called))]
#[unsafe(no_mangle)]
pub extern "C" fn standplan_finish(
    words: &mut [u64; 4],
    tick: &mut u32,
    start: &mut [u32; 64],
    finish: &mut [u32; 64],
    least: &mut [u16; 64],
    map: &mut u64,
    s: usize,
    table: &[u32],
) -> u32
    ensures { Leaves (λ st. Dispatcher.finish st s table.now)
        (memory words.old tick.old start.old finish.old least.old map.old) result
        (memory words.new tick.new start.new finish.new least.new map.new) }
{
    perform(
        Call::Finish(s),
        words,
        tick,
        start,
        finish,
        least,
        map,
        &NO_LEASTS,
        table,
    )
}
