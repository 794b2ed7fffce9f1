// The row of a step handed on along one edge: see specs/Columns.antt.
#![tactic(auto)]

ghost use Rattle.std.specs.Prelude.{◌≢◌, ◌<◌, get_or};
ghost use Rattle.definitions.specs.Links.{UsableFrom};
ghost use Rattle.data_edges.specs.Words.{unpack};
ghost use Rattle.walk_lift.specs.Lifts.{Liftable, Raised, lent};
ghost use Rattle.walk_edge.specs.Columns.{HandedAll, Only, Sendable};

use data_edges::{edge_gain, edge_loss, edge_to, is_late};
use walk_lift::raise_row;

// A late edge leaves the column of its own end as it was.
fn raise_late(
    d: &mut [[i32; 64]],
    row: &[i32; 64],
    to: usize,
    delta: i32,
    number: &[u8; 64],
    width: usize,
    marks: u64,
) -> u64
    requires { (to < 64) × Liftable to width delta row.now d.old }
    ensures { Raised (λ k. (k < width) × (k ≢ get_or number.now to 0)) to delta row.now d.old d.new marks result }
{
    let k = usize::from(number[to]);
    if width <= k {
        return raise_row(d, row, to, delta, width, marks);
    }
    let old = d[to][k];
    let left = raise_row(d, row, to, delta, width, marks);
    d[to][k] = old;
    left
}

// One edge, with the row that its start had as its visit began. Where no walk gets longer than offset 0 by it, there is nothing to do.
pub fn push_word(
    d: &mut [[i32; 64]],
    row: &[i32; 64],
    marks: u64,
    w: u64,
    top: u32,
    number: &[u8; 64],
    width: usize,
) -> u64
    requires { Sendable (unpack w) width top row.now d.old }
    ensures { HandedAll (λ a. UsableFrom (Only (unpack w)) a) number.now (unpack w).from (lent row.now width) d.old d.new marks result }
{
    let to = edge_to(w);
    let gain = edge_gain(w);
    let loss = edge_loss(w);
    let delta = walk_cells::delta(gain, loss);
    if walk_cells::is_idle(top, gain, loss) {
        return marks;
    }
    if is_late(w) {
        return raise_late(d, row, to, delta, number, width, marks);
    }
    raise_row(d, row, to, delta, width, marks)
}
