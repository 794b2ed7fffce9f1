// The sweep after a call of the dispatcher that is not refused: every step that is ready starts.
#![tactic(auto)]

ghost use Rattle.std.specs.Prelude.{◌≡◌};
ghost use Rattle.definitions.specs.Dispatcher.{starting, start_ticks};
ghost use Rattle.run_release.specs.Sweeps.{Room, Swept};

use definitions::{Dispatch, State};

// One sweep over the steps that exist: the map of those that start now, and the start ticks with theirs in.
fn starting_now(st: &State, table: &[u32]) -> (u64, [u32; 64])
    requires { Room st.now table.now }
    ensures { (result.0 ≡ starting st.now table.now) × (result.1 ≡ start_ticks st.now table.now st.now.n) }
{
    let mut map = 0;
    let mut start = st.start;
    for v in 0..st.n {
        if run_ready::is_ready(st, table, v) {
            map += 1 << v;
            start[v] = st.tick;
        }
    }
    (map, start)
}

// What follows each call that is not refused: every step that is ready starts.
pub fn sweep(st: State, table: &[u32]) -> Dispatch
    requires { Room st table.now }
    ensures { Swept st table.now result }
{
    let (map, start) = starting_now(&st, table);
    let started = st.started | map;
    Dispatch {
        status: Ok(()),
        state: State {
            started,
            start,
            ..st
        },
        map,
    }
}
