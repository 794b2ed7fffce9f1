// The plan's table (the relative schedule), from the working tables of crate plan_deciding.
// Every function is safe for any tables with a row for each step and each member; on orderly ones, as those of an accepted sheet are, its answer is the definition's.
#![tactic(auto)]

ghost use Rattle.std.specs.Prelude.{◌≡◌, ◌++◌, ℕ, ◌<◌, ◌≤◌, length, drop, get_or};
ghost use Rattle.definitions.specs.Basics.{tabulate, test_bit};
ghost use Rattle.definitions.specs.Plan.{undecided};
ghost use Rattle.plan_deciding.specs.Working.{Orderly, Row, Rowed, cells_in, offset_in};
ghost use Rattle.plan_table.specs.Rows.{Plannable, Planned, Put, Room, cleared, entry_at};

use definitions::UNDECIDED;
use plan_deciding::Tables;

// The first numbers, as many as are to be cleared, become the entries of members that do not decide.
fn clear(count: usize, row: &mut [u32])
    requires { count ≤ length row.old }
    ensures { row.new ≡ tabulate cleared count ++ drop count row.old }
{
    row[..count].fill(UNDECIDED);
}

// The offsets of v for the members of a map below n, each at its place in the row. The map is cut to them first.
fn put_offsets(t: Tables, map: u64, n: usize, v: usize, row: &mut [u32])
    requires { Row v t.cells.now × Room n row.old }
    ensures { Put n (test_bit map) (offset_in (cells_in t.entry) t.entry.leasts.now v) row.old row.new }
{
    let first = data_sets::below(n);
    for a in data_bits::members(data_sets::both(map, first)) {
        row[a] = plan_deciding::offset_at(t, v, a);
    }
}

// Row v of the plan, where it is cleared.
fn fill_row(t: Tables, n: usize, v: usize, row: &mut [u32])
    requires { Rowed v t.sets.now t.cells.now × Room n row.old }
    ensures { Orderly (cells_in t.entry) t.entry.sets.now v → ((a : ℕ) → a < n → get_or row.old a 0 ≡ undecided) → row.new ≡ tabulate (entry_at (cells_in t.entry) t.entry.leasts.now t.entry.sets.now v) n ++ drop n row.old }
{
    let deciding = plan_deciding::deciding_set(t, v);
    put_offsets(t, deciding, n, v, row);
}

// The plan's table, at the front of the lent numbers: all of it is cleared, and then filled a row at a time, each in the part of the table where it belongs.
pub fn fill_plan(t: Tables, n: usize, table: &mut [u32])
    requires { Plannable n t.sets.now t.cells.now table.old }
    ensures { Planned n (cells_in t.entry) t.entry.leasts.now t.entry.sets.now table.old table.new }
{
    clear(n * n, table);
    for v in 0..n {
        let at = v * n;
        fill_row(t, n, v, &mut table[at..]);
    }
}
