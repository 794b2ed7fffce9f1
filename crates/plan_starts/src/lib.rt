// Start times (relative start times) for a list of delays, from the working tables of crate plan_deciding.
// Every function is safe for any tables with a row for each step; on those of an edge list its answer is the definition's.
#![tactic(auto)]

ghost use Rattle.std.specs.Prelude.{◌≡◌};
ghost use Rattle.definitions.specs.Basics.{largest, test_bit};
ghost use Rattle.walk_cells.specs.Tables.{Rows};
ghost use Rattle.plan_deciding.specs.Working.{Row, cells_in};
ghost use Rattle.plan_starts.specs.Times.{Listed, Member, Startable, Started, term, start_at, next_row, row_after};

use plan_deciding::Tables;

// Where starts are cut: those of a sheet are far below.
const CUT: u64 = 4294967295;

// What the member a adds to the choice for v.
fn term_of(t: Tables, list: &[u32], old: &[u32; 64], v: usize, a: usize) -> u64
    requires { Member v a t.cells.now list.now }
    ensures { result ≡ term (cells_in t.entry) t.entry.leasts.now list.now old.now v a }
{
    let offset = plan_deciding::offset_at(t, v, a);
    u64::from(old[a]) + u64::from(list[a]) + u64::from(offset)
}

// The largest term of the members below n, in their order.
fn latest(t: Tables, members: u64, n: usize, list: &[u32], old: &[u32; 64], v: usize) -> u64
    requires { Row v t.cells.now × Listed n list.now }
    ensures { result ≡ largest (test_bit members) (term (cells_in t.entry) t.entry.leasts.now list.now old.now v) n }
{
    let mut most = 0u64;
    for a in data_bits::members(members) {
        if n <= a {
            return most;
        }
        most = most.max(term_of(t, list, old, v, a));
    }
    most
}

// The start of v by the starts of a row.
fn start_of(t: Tables, n: usize, list: &[u32], old: &[u32; 64], v: usize) -> u32
    requires { Row v t.cells.now × Listed n list.now }
    ensures { result ≡ start_at (cells_in t.entry) t.entry.leasts.now t.entry.sets.now n list.now old.now v }
{
    if v == 0 {
        return 0;
    }
    let most = latest(t, t.sets[v], n, list, old, v);
    most.min(CUT) as u32
}

// One turn of the rule.
fn turn(t: Tables, n: usize, list: &[u32], old: &[u32; 64]) -> [u32; 64]
    requires { Rows n t.cells.now × Listed n list.now }
    ensures { result ≡ next_row (cells_in t.entry) t.entry.leasts.now t.entry.sets.now n list.now old.now }
{
    let mut row = [0u32; 64];
    for v in 0..n {
        row[v] = start_of(t, n, list, old, v);
    }
    row
}

// Turns until one changes nothing, n of them at most.
fn turns(t: Tables, n: usize, list: &[u32]) -> [u32; 64]
    requires { Rows n t.cells.now × Listed n list.now }
    ensures { result ≡ row_after (cells_in t.entry) t.entry.leasts.now t.entry.sets.now n list.now n }
{
    let mut row = [0u32; 64];
    for k in 0..n {
        let next = turn(t, n, list, &row);
        if row[..n] == next[..n] {
            return next;
        }
        row = next;
    }
    row
}

// Start times for a list of delays, at the front of the lent numbers.
pub fn fill_starts(t: Tables, n: usize, list: &[u32], out: &mut [u32])
    requires { Startable n t.cells.now list.now out.old }
    ensures { Started n (cells_in t.entry) t.entry.leasts.now t.entry.sets.now list.now out.old out.new }
{
    let row = turns(t, n, list);
    out[..n].copy_from_slice(&row[..n]);
}
