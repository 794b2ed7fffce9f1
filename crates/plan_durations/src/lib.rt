// Lists of delays: whether a list is within its limits, by the map of the open steps, whose delays it gives, and their leasts.
#![tactic(auto)]

ghost use Rattle.std.specs.Prelude.{◌≡◌, ◌<◌, ◌≤◌};
ghost use Rattle.definitions.specs.Limits.{most_steps};
ghost use Rattle.plan_durations.specs.Delays.{Judged, outside};

use definitions::MOST_DURATION;

// Whether x is below the least of entry i, or above its limit: 16,777,215 for an open step other than 0, else 0.
fn delay_bad(x: u32, unbounded: u64, least: u16, i: usize) -> bool
    requires { i < most_steps }
    ensures { result ≡ outside unbounded least i x }
{
    if x < u32::from(least) {
        return true;
    }
    if data_bits::has(unbounded, i) {
        return MOST_DURATION < x;
    }
    0 < x
}

// Whether an entry of a list, of the first n those that are there, is above its limit or below its least (refusal 13).
pub fn delays_bad(list: &[u32], unbounded: u64, leasts: &[u16; 64], n: usize) -> bool
    requires { n ≤ most_steps }
    ensures { Judged list.now unbounded leasts.now n result }
{
    for i in 0..n.min(list.len()) {
        if delay_bad(list[i], unbounded, leasts[i], i) {
            return true;
        }
    }
    false
}
