// The dispatcher: begins a run, moves its clock, takes finishes, and has each step start when its row of the plan is due.
#![tactic(auto)]

ghost use Rattle.std.specs.Prelude.{◌≡◌, ◌*◌, ◌<◌, ◌≤◌};
ghost use Rattle.definitions.specs.Basics.{refused};
ghost use Rattle.definitions.specs.Limits.{last_tick, most_steps};
ghost use Rattle.definitions.specs.Numbers.{number};
ghost use Rattle.definitions.specs.Answers.{bad_count, too_short};
ghost use Rattle.definitions.specs.Dispatcher as Dispatcher;
ghost use Rattle.definitions.specs.Dispatcher.{Returns};
ghost use Rattle.run_calls.specs.Calls.{BeginReturned, FinishReturned, LeastsThere, TickReturned, too_little};

use definitions::{Dispatch, LAST_TICK, Refusal, State};

// A refusal: map 0 and the state as given.
#[tactic(auto, unfolding(definitions::specs::Dispatcher::state_after, definitions::specs::Dispatcher::map_after))]
fn refusal(st: State, why: Refusal) -> Dispatch
    ensures { Returns st (refused (number why)) result }
{
    Dispatch {
        status: Err(why),
        state: st,
        map: 0,
    }
}

// 2: the count is not 1 to 64.
#[tactic(auto, using(crate::proofs::CallLaws::count_low, crate::proofs::CallLaws::count_high))]
fn wrong_count(n: usize) -> bool
    ensures { result ≡ bad_count n }
{
    n < 1 || 64 < n
}

// 15: no run has begun, or the count is wrong.
#[tactic(auto, unfolding(definitions::specs::Dispatcher::not_running, definitions::specs::Dispatcher::begun))]
fn is_idle(st: &State) -> bool
    ensures { result ≡ Dispatcher.not_running st.now }
{
    !data_bits::has(st.started, 0) || wrong_count(st.n)
}

// 14: the table has fewer than n × n numbers.
#[tactic(auto, unfolding(definitions::specs::Answers::too_short))]
fn is_short(table: &[u32], n: usize) -> bool
    requires { n ≤ most_steps }
    ensures { result ≡ too_short table.now (n * n) }
{
    table.len() < n * n
}

// 14 of Begin: the table has fewer than n × n numbers, or the list of least durations fewer than n.
#[tactic(auto, unfolding(definitions::specs::Answers::too_short))]
fn too_little(table: &[u32], leasts: &[u16], n: usize) -> bool
    requires { n ≤ most_steps }
    ensures { result ≡ too_little n leasts.now table.now }
{
    is_short(table, n) || leasts.len() < n
}

// 17: s is 0, does not exist, is not open, has not started, or has finished.
#[tactic(auto, unfolding(definitions::specs::Dispatcher::cannot_finish))]
fn not_finishable(st: &State, s: usize) -> bool
    requires { st.now.n ≤ most_steps }
    ensures { result ≡ Dispatcher.cannot_finish st.now s }
{
    if s == 0 || st.n <= s {
        return true;
    }
    !data_bits::has(st.unbounded, s)
        || !data_bits::has(st.started, s)
        || data_bits::has(st.finished, s)
}

// 20: the tick of the state is below the start tick of s plus its least duration. Their sum has 64 bits: the numbers may come from anywhere.
#[tactic(auto, unfolding(definitions::specs::Dispatcher::too_early))]
fn is_early(st: &State, s: usize) -> bool
    requires { s < most_steps }
    ensures { result ≡ Dispatcher.too_early st.now s }
{
    u64::from(st.tick) < u64::from(st.start[s]) + u64::from(st.least[s])
}

// The least durations that a run takes along: the first n that are lent, and 0 past them.
fn kept_leasts(n: usize, leasts: &[u16]) -> [u16; 64]
    requires { LeastsThere n leasts.now }
    ensures { result ≡ Dispatcher.kept_leasts n leasts.now }
{
    let mut least = [0; 64];
    least[..n].copy_from_slice(&leasts[..n]);
    least
}

// All set anew; step 0 starts and finishes at tick 0.
fn fresh(n: usize, unbounded: u64, leasts: &[u16]) -> State
    requires { LeastsThere n leasts.now }
    ensures { result ≡ Dispatcher.fresh n unbounded leasts.now }
{
    State {
        n,
        unbounded,
        tick: 0,
        started: 1,
        finished: 1,
        start: [0; 64],
        finish: [0; 64],
        least: kept_leasts(n, leasts),
    }
}

// The tick grown by one.
#[tactic(auto, unfolding(definitions::specs::Dispatcher::ticked))]
fn ticked(st: State) -> State
    requires { st.tick < last_tick }
    ensures { result ≡ Dispatcher.ticked st }
{
    State {
        tick: st.tick + 1,
        ..st
    }
}

// Step s ends at this tick.
fn ended(st: State, s: usize) -> State
    requires { s < most_steps }
    ensures { result ≡ Dispatcher.ended st s }
{
    let mut next = st;
    next.finished |= 1 << s;
    next.finish[s] = st.tick;
    next
}

// Begin: all is set anew, with the least durations that are lent, and step 0 starts and finishes. Refuses 16, 2, 14, in this order.
pub fn begin(st: State, n: usize, unbounded: u64, leasts: &[u16], table: &[u32]) -> Dispatch
    ensures { BeginReturned st n unbounded leasts.now table.now result }
{
    if data_bits::has(st.started, 0) {
        return refusal(st, Refusal::AlreadyBegun);
    }
    if wrong_count(n) {
        return refusal(st, Refusal::OperationCount);
    }
    if too_little(table, leasts, n) {
        return refusal(st, Refusal::TooShort);
    }
    let swept = run_release::sweep(fresh(n, unbounded, leasts), table);
    Dispatch {
        map: 1 | swept.map,
        ..swept
    }
}

// Tick: the tick grows by one. Refuses 15, 14, 18, in this order.
pub fn tick(st: State, table: &[u32]) -> Dispatch
    ensures { TickReturned st table.now result }
{
    if is_idle(&st) {
        return refusal(st, Refusal::NotBegun);
    }
    if is_short(table, st.n) {
        return refusal(st, Refusal::TooShort);
    }
    if st.tick == LAST_TICK {
        return refusal(st, Refusal::ClockEnd);
    }
    run_release::sweep(ticked(st), table)
}

// Finish: the open step s ends at this tick. Refuses 15, 14, 17, 20, in this order.
pub fn finish(st: State, s: usize, table: &[u32]) -> Dispatch
    ensures { FinishReturned st s table.now result }
{
    if is_idle(&st) {
        return refusal(st, Refusal::NotBegun);
    }
    if is_short(table, st.n) {
        return refusal(st, Refusal::TooShort);
    }
    if not_finishable(&st, s) {
        return refusal(st, Refusal::CannotFinish);
    }
    if is_early(&st, s) {
        return refusal(st, Refusal::TooEarly);
    }
    run_release::sweep(ended(st, s), table)
}
