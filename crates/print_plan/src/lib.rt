// What `standplan` prints, formatted into a lent buffer line by line.
#![tactic(auto)]

ghost use Rattle.std.specs.Prelude.{◌+◌, ◌*◌, ◌≤◌, length};
ghost use Rattle.definitions.specs.Limits.{most_steps};
ghost use Rattle.data_buffers.specs.Texts.{Put};
ghost use Rattle.print_line.specs.Texts.{Printed};
ghost use Rattle.print_plan.specs.Texts.{StartFits, StartsFit, TableFits, WaitFits, WaitsFit, wait_cell, maps_row, maps_text, start_cell, table_row, table_text, plan_text, plan_room};

use definitions::UNDECIDED;

// The wait line of a and i, where bit a of map i stands.
fn put_wait_at(maps: &[u64; 64], a: usize, i: usize, out: &mut [u8], at: usize) -> usize
    requires { WaitFits a i (wait_cell maps.now a i) at out.old }
    ensures { Put (wait_cell maps.now a i) at result out.old out.new }
{
    if data_bits::has(maps[i], a) {
        let pair = [a as u32, i as u32];
        return print_line::put_line(b"wait", &pair, out, at);
    }
    at
}

// The wait lines of a.
fn put_waits_of(maps: &[u64; 64], n: usize, a: usize, out: &mut [u8], at: usize) -> usize
    requires { WaitsFit n a (maps_row n maps.now a) at out.old }
    ensures { Put (maps_row n maps.now a) at result out.old out.new }
{
    let mut p = at;
    for i in 0..n {
        p = put_wait_at(maps, a, i, out, p);
    }
    p
}

// Every wait line.
fn put_waits(maps: &[u64; 64], n: usize, out: &mut [u8], at: usize) -> usize
    requires { (n ≤ most_steps) × (at + length (maps_text n maps.now) ≤ length out.old) }
    ensures { Put (maps_text n maps.now) at result out.old out.new }
{
    let mut p = at;
    for a in 0..n {
        p = put_waits_of(maps, n, a, out, p);
    }
    p
}

// The start line of v and a, where a decides v.
fn put_start_at(table: &[u32], n: usize, v: usize, a: usize, out: &mut [u8], at: usize) -> usize
    requires { StartFits n v a table.now (start_cell n table.now v a) at out.old }
    ensures { Put (start_cell n table.now v a) at result out.old out.new }
{
    let ticks = table[v * n + a];
    if ticks == UNDECIDED {
        return at;
    }
    let numbers = [v as u32, a as u32, ticks];
    print_line::put_line(b"start", &numbers, out, at)
}

// The start lines of v.
fn put_starts_of(table: &[u32], n: usize, v: usize, out: &mut [u8], at: usize) -> usize
    requires { StartsFit n v table.now (table_row n table.now v) at out.old }
    ensures { Put (table_row n table.now v) at result out.old out.new }
{
    let mut p = at;
    for a in 0..n {
        p = put_start_at(table, n, v, a, out, p);
    }
    p
}

// Every start line.
fn put_starts(table: &[u32], n: usize, out: &mut [u8], at: usize) -> usize
    requires { TableFits n table.now (table_text n table.now) at out.old }
    ensures { Put (table_text n table.now) at result out.old out.new }
{
    let mut p = at;
    for v in 0..n {
        p = put_starts_of(table, n, v, out, p);
    }
    p
}

// What is printed of an accepted sheet: its verdict, the count of its waits, the waits and the plan. Returns how many bytes there are.
pub fn print_plan(
    verdict: u32,
    count: u32,
    maps: &[u64; 64],
    table: &[u32],
    n: usize,
    out: &mut [u8],
) -> usize
    requires { (n ≤ most_steps) × (n * n ≤ length table.now) × (plan_room ≤ length out.old) }
    ensures { Printed (plan_text verdict count maps.now table.now n) result out.old out.new }
{
    let p = print_line::put_heading(b"verdict", verdict, out, 0);
    let q = print_line::put_heading(b"waits", count, out, p);
    let s = put_waits(maps, n, out, q);
    put_starts(table, n, out, s)
}
