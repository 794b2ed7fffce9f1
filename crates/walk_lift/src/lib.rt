// A row of cells taken in by another row, all numbered columns at once: see specs/Lifts.antt. The loops over a row have no branch, so that the compiler makes vectors of them.
#![tactic(auto)]

ghost use Rattle.std.specs.Prelude.{◌≡◌, false, ◌<◌, pos};
ghost use Rattle.walk_lift.specs.Lifts.{Liftable, LiftableCell, Lifted, Raised, Still};

use walk_cells::{change, larger, moved};

// The cell of row `to` in column k takes in what moves there. How it changed: 0 where it did not.
fn lift_cell(d: &mut [[i32; 64]], row: &[i32; 64], to: usize, delta: i32, k: usize) -> i32
    requires { LiftableCell to k delta row.now d.old }
    ensures { Lifted (λ j. j ≡ k) to delta row.now d.old d.new × (result ≡ pos 0 → Still to d.old d.new) }
{
    let c = moved(row[k], delta);
    let old = d[to][k];
    let new = larger(old, c);
    d[to][k] = new;
    change(old, new)
}

// The first columns of the row, four at a time: so many make a vector. A `for` by steps of four compiles to a second test in each turn.
fn lift(d: &mut [[i32; 64]], row: &[i32; 64], to: usize, delta: i32, width: usize)
    requires { Liftable to width delta row.now d.old }
    ensures { Lifted (λ k. k < width) to delta row.now d.old d.new }
{
    let mut k = 0;
    while k < width {
        lift_cell(d, row, to, delta, k);
        lift_cell(d, row, to, delta, k + 1);
        lift_cell(d, row, to, delta, k + 2);
        lift_cell(d, row, to, delta, k + 3);
        k += 4;
    }
}

// The same; whether a cell changed. What changed is gathered by the places of a vector.
fn lift_noting(d: &mut [[i32; 64]], row: &[i32; 64], to: usize, delta: i32, width: usize) -> bool
    requires { Liftable to width delta row.now d.old }
    ensures { Lifted (λ k. k < width) to delta row.now d.old d.new × (result ≡ false → Still to d.old d.new) }
{
    let mut g0 = 0i32;
    let mut g1 = 0i32;
    let mut g2 = 0i32;
    let mut g3 = 0i32;
    let mut k = 0;
    while k < width {
        g0 |= lift_cell(d, row, to, delta, k);
        g1 |= lift_cell(d, row, to, delta, k + 1);
        g2 |= lift_cell(d, row, to, delta, k + 2);
        g3 |= lift_cell(d, row, to, delta, k + 3);
        k += 4;
    }
    (g0 | g1 | g2 | g3) != 0
}

// The same with marks. Where `to` has one nothing needs to be noted, as in most cases.
pub fn raise_row(
    d: &mut [[i32; 64]],
    row: &[i32; 64],
    to: usize,
    delta: i32,
    width: usize,
    marks: u64,
) -> u64
    requires { (to < 64) × Liftable to width delta row.now d.old }
    ensures { Raised (λ k. k < width) to delta row.now d.old d.new marks result }
{
    if data_bits::has(marks, to) {
        lift(d, row, to, delta, width);
        return marks;
    }
    let grew = lift_noting(d, row, to, delta, width);
    data_bits::insert_if(marks, to, grew)
}
