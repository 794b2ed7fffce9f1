// What a run of a sheet is begun with (request L6): N, the map of its open steps and its least durations, so that nobody who runs a sheet has to read its bytes.
#![tactic(auto)]

ghost use Rattle.std.specs.Prelude.{◌≡◌, ◌||◌, ◌++◌, ℕ, ◌≤◌, eqb, drop};
ghost use Rattle.definitions.specs.Basics.{bits_below, tabulate, test_bit};
ghost use Rattle.definitions.specs.Limits.{most_steps};
ghost use Rattle.data_edges.specs.Serial.{leasts_in};
ghost use Rattle.run_sheet.specs.Steps.{Counted, Returns, Room, StepsReturned, memory, steps_of};

use definitions::{MOST_EDGES, Refusal};

// The map of the open steps of n: step 0, and those of the others that stand in a map. What that map holds past the steps is left out.
fn open_steps(others: u64, n: usize) -> u64
    requires { Counted n }
    ensures { result ≡ bits_below (λ (i : ℕ). eqb i 0 || test_bit others i) n }
{
    data_bits::insert(data_sets::both(others, data_sets::below(n)), 0)
}

// The first n leasts, to the front of the lent numbers.
fn copy_leasts(held: &[u16; 64], n: usize, leasts: &mut [u16])
    requires { Room n leasts.old }
    ensures { leasts.new ≡ tabulate (leasts_in held.now) n ++ drop n leasts.old }
{
    leasts[..n].copy_from_slice(&held[..n]);
}

// Of a sheet of so many steps, with the map of the open ones other than 0 and the leasts that it holds. Refuses 14.
fn give(
    count: usize,
    others: u64,
    held: &[u16; 64],
    n: &mut usize,
    unbounded: &mut u64,
    leasts: &mut [u16],
) -> Result<(), Refusal>
    requires { Counted count }
    ensures { Returns (steps_of count others held.now leasts.old)
        (memory n.old unbounded.old leasts.old) result
        (memory n.new unbounded.new leasts.new) }
{
    if leasts.len() < count {
        return Err(Refusal::TooShort);
    }
    copy_leasts(held, count, leasts);
    *unbounded = open_steps(others, count);
    *n = count;
    Ok(())
}

// What a run of a sheet is begun with, whatever its bytes: N, the map of its open steps, and at the front of the lent numbers its leasts; those past N stay as lent.
// Refuses what reading refuses, 1 to 7 and 26, then 14 where fewer than N numbers are lent. Nothing changes on a refusal.
pub fn steps(
    s: &[u8],
    n: &mut usize,
    unbounded: &mut u64,
    leasts: &mut [u16],
) -> Result<(), Refusal>
    ensures { StepsReturned s.now (memory n.old unbounded.old leasts.old) result
        (memory n.new unbounded.new leasts.new) }
{
    let mut words = [0u64; MOST_EDGES];
    let mut held = [0u16; 64];
    let report = read_sheet::read(s, &mut words, &mut held)?;
    give(report.n, report.unbounded, &held, n, unbounded, leasts)
}
