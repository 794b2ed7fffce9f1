// Registers and comparisons of a plan (request L5), counted over its own entries. A plan of n steps has n × n numbers: at v × n + a the offset of v for a, or UNDECIDED where a does not decide v.
#![tactic(auto)]

ghost use Rattle.std.specs.Prelude.{◌≡◌, cond, not, ◌<◌, eqb, get_or};
ghost use Rattle.definitions.specs.Basics.{test_bit};
ghost use Rattle.definitions.specs.Plan.{undecided};
ghost use Rattle.definitions.specs.Price.{comparisons_of, entry_at, largest_offset, registers_of, too_large};
ghost use Rattle.price_counts.specs.Plans.{Counted, EntryThere, Filled, Planned, Room, StepThere, is_large};

use definitions::{REGISTER_ENTRIES, UNDECIDED};

// ---- an entry

// The entry at step v for step a.
fn entry(plan: &[u32], n: usize, v: usize, a: usize) -> u32
    requires { EntryThere n v a plan.now }
    ensures { result ≡ entry_at n plan.now a v }
{
    let at = v * n + a;
    plan[at]
}

// What an entry adds to the choice of the largest offset: itself where it is an offset.
fn offset_of(x: u32) -> u32
    ensures { result ≡ cond (not (eqb x undecided)) x 0 }
{
    if x == UNDECIDED { 0 } else { x }
}

// What an entry adds to the comparisons: 1 where it is an offset.
fn one_for(x: u32) -> u32
    ensures { result ≡ cond (not (eqb x undecided)) 1 0 }
{
    u32::from(x != UNDECIDED)
}

// ---- registers

// The largest offset at which a stands, 0 if nowhere.
fn largest_offset(plan: &[u32], n: usize, a: usize) -> u32
    requires { StepThere n a plan.now }
    ensures { result ≡ largest_offset n plan.now a }
{
    let mut most = 0;
    for v in 0..n {
        let x = entry(plan, n, v, a);
        most = most.max(offset_of(x));
    }
    most
}

// Whether a is open and its largest offset is one that the table has no entry for.
fn large(plan: &[u32], n: usize, unbounded: u64, a: usize) -> bool
    requires { StepThere n a plan.now }
    ensures { result ≡ is_large unbounded n plan.now a }
{
    if !data_bits::has(unbounded, a) {
        return false;
    }
    REGISTER_ENTRIES <= largest_offset(plan, n, a) as usize
}

// Whether 19 applies: the largest offset of step 0 or of an open step is 1,024 or more. `unbounded` is the map of these steps.
pub fn too_large(plan: &[u32], n: usize, unbounded: u64) -> bool
    requires { Planned n plan.now }
    ensures { result ≡ too_large (test_bit unbounded) n plan.now }
{
    for a in 0..n {
        if large(plan, n, unbounded, a) {
            return true;
        }
    }
    false
}

// The table's entry at a place; 0 past its end.
fn look_up(entries: &[u16], at: usize) -> u32
    ensures { Counted (get_or entries.now at 0) result }
{
    match entries.get(at) {
        Some(&entry) => u32::from(entry),
        None => 0,
    }
}

// The registers of a: the table's entry at its largest offset, and 0 where a is fixed.
fn registers(entries: &[u16], plan: &[u32], n: usize, unbounded: u64, a: usize) -> u32
    requires { StepThere n a plan.now }
    ensures { Counted (registers_of (test_bit unbounded) entries.now n plan.now a) result }
{
    if !data_bits::has(unbounded, a) {
        return 0;
    }
    let most = largest_offset(plan, n, a);
    look_up(entries, most as usize)
}

// The registers of each step, at the front of the lent numbers. Returns their sum.
pub fn fill_registers(
    entries: &[u16],
    plan: &[u32],
    n: usize,
    unbounded: u64,
    list: &mut [u32],
) -> u32
    requires { Room n plan.now list.old }
    ensures { Filled (registers_of (test_bit unbounded) entries.now n plan.now) n list.old result list.new }
{
    let mut total = 0;
    for a in 0..n {
        let count = registers(entries, plan, n, unbounded, a);
        list[a] = count;
        total += count;
    }
    total
}

// ---- comparisons

// The comparisons of v: one for each member of its deciding set.
fn comparisons(plan: &[u32], n: usize, v: usize) -> u32
    requires { StepThere n v plan.now }
    ensures { Counted (comparisons_of n plan.now v) result }
{
    let mut count = 0;
    for a in 0..n {
        let x = entry(plan, n, v, a);
        count += one_for(x);
    }
    count
}

// The comparisons of each step, at the front of the lent numbers. Returns their sum.
pub fn fill_comparisons(plan: &[u32], n: usize, list: &mut [u32]) -> u32
    requires { Room n plan.now list.old }
    ensures { Filled (comparisons_of n plan.now) n list.old result list.new }
{
    let mut total = 0;
    for v in 0..n {
        let count = comparisons(plan, n, v);
        list[v] = count;
        total += count;
    }
    total
}
