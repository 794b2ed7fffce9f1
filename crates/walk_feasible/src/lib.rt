// Whether no closed walk weighs more than 0: refusal 10. Passes over one row of cells, from weight 0 everywhere, until nothing is left to hand on or a walk that closes above 0 is found. See specs/Search.antt.
#![tactic(auto)]

ghost use Rattle.std.specs.Prelude.{◌≡◌, true, ◌<◌, ◌≤◌};
ghost use Rattle.data_lists.specs.Graphs.{edges_in};
ghost use Rattle.definitions.specs.Limits.{most_steps};
ghost use Rattle.definitions.specs.Links.{members};
ghost use Rattle.data_edges.specs.Words.{graph, unpack};
ghost use Rattle.theory.specs.Graphs.{Rooted, Shape};
ghost use Rattle.walk_cells.specs.Cells.{Movable, height};
ghost use Rattle.walk_feasible.specs.Search.{Circle, Enters, Passed, Pushed, Room, level, pass_visits, rests};

use data_edges::{edge_from, edge_gain, edge_loss, edge_to};
use data_lists::Edges;

// One edge, at place k of the lists, from a cell that holds own. Where it raises the cell at its end, a mark stands there and the place is noted. The marks after it.
fn push_edge(row: &mut [i32; 64], via: &mut [u16; 64], marks: u64, w: u64, k: u16, own: i32) -> u64
    requires { Movable own }
    ensures { Pushed (λ e. e ≡ unpack w) (unpack w).from (height own) row.old row.new via.new marks result }
{
    let to = edge_to(w);
    let by = walk_cells::delta(edge_gain(w), edge_loss(w));
    let c = walk_cells::moved(own, by);
    if walk_cells::is_less(row[to], c) {
        row[to] = c;
        via[to] = k;
        return data_bits::insert(marks, to);
    }
    marks
}

// The edges out of u.
fn push_step(row: &mut [i32; 64], via: &mut [u16; 64], marks: u64, es: Edges, u: usize) -> u64
    requires { (u < 64) × Room 1 row.old }
    ensures { Pushed (members (edges_in es.entry)) u (level row.old u) row.old row.new via.new marks result }
{
    let own = row[u];
    let mut m = marks;
    for k in es.out_of(u) {
        m = push_edge(row, via, m, es.words[k], (k + 1) as u16, own);
    }
    m
}

// Step u hands on, where its cell was raised since it last did.
fn pass_step(row: &mut [i32; 64], via: &mut [u16; 64], marks: u64, es: Edges, u: usize) -> u64
    requires { (u < 64) × Room 1 row.old }
    ensures { Passed (members (edges_in es.entry)) (λ v. v ≡ u) 1 row.old row.new via.new marks result }
{
    let rest = data_bits::remove(marks, u);
    if rest == marks {
        return marks;
    }
    push_step(row, via, rest, es, u)
}

// The steps of an order, one after another. What the order is decides only how much is left to do.
fn pass_order(
    row: &mut [i32; 64],
    via: &mut [u16; 64],
    marks: u64,
    es: Edges,
    order: &[u8; 64],
    n: usize,
) -> u64
    requires { (n ≤ most_steps) × Room most_steps row.old }
    ensures { Passed (members (edges_in es.entry)) (λ v. ⊥) most_steps row.old row.new via.new marks result }
{
    let mut m = marks;
    for &x in &order[..n] {
        m = pass_step(row, via, m, es, data_indices::place(x));
    }
    m
}

// Every step that has a mark, from the last to the first: returns mostly lead to lower steps. Those that are left are before the last one visited.
fn pass_down(row: &mut [i32; 64], via: &mut [u16; 64], marks: u64, es: Edges) -> u64
    requires { Room most_steps row.old }
    ensures { Passed (members (edges_in es.entry)) (λ v. v < 64) most_steps row.old row.new via.new marks result }
{
    let mut m = marks;
    let mut left = marks;
    let mut last = 64;
    while left != 0 {
        last = data_bits::highest(left);
        m = pass_step(row, via, m, es, last);
        left = data_sets::both(m, data_sets::below(last));
    }
    m
}

// One pass: the order settles the forward edges, the way back the returns.
fn pass(
    row: &mut [i32; 64],
    via: &mut [u16; 64],
    marks: u64,
    es: Edges,
    order: &[u8; 64],
    n: usize,
) -> u64
    requires { (n ≤ most_steps) × Room pass_visits row.old }
    ensures { Passed (members (edges_in es.entry)) (λ v. v < 64) pass_visits row.old row.new via.new marks result }
{
    let m = pass_order(row, via, marks, es, order, n);
    pass_down(row, via, m, es)
}

// Whether k is the place of an edge that enters v.
fn enters(es: &[u64], k: usize, v: usize) -> bool
    ensures { result ≡ true → Enters es.now k v }
{
    k != 0 && k <= es.len() && edge_to(es[k - 1]) == v
}

// Back from x, n times, along the edges that raised each step last: where a walk that closes leads to x, this is on it.
fn far_back(es: &[u64], via: &[u16; 64], x: usize, n: usize) -> usize
    requires { x < 64 }
    ensures { result < 64 }
{
    let mut v = x;
    for _ in 0..n {
        let i = usize::from(via[v]);
        if i == 0 || es.len() < i {
            return v;
        }
        v = edge_from(es[i - 1]);
    }
    v
}

// Back from x until x comes again: whether that closed walk weighs more than 0.
fn closes_above(es: &[u64], via: &[u16; 64], x: usize, n: usize) -> bool
    requires { (x < 64) × (n ≤ most_steps) }
    ensures { result ≡ true → Circle (members (graph es.now)) }
{
    let mut v = x;
    let mut gains = 0;
    let mut losses = 0;
    for _k in 0..n {
        let i = usize::from(via[v]);
        if !enters(es, i, v) {
            return false;
        }
        let w = es[i - 1];
        gains += edge_gain(w);
        losses += edge_loss(w);
        v = edge_from(w);
        if v == x {
            return losses < gains;
        }
    }
    false
}

// Whether start times keep every edge while no step is delayed. The order decides speed alone.
pub fn feasible(es: Edges, order: &[u8; 64], n: usize) -> bool
    requires some { 1 ≤ n }
    requires few { n ≤ most_steps }
    ensures { Shape n (members (edges_in es.entry)) → Rooted n (members (edges_in es.entry)) → result ≡ rests n es.entry.words.now }
{
    let mut row = [0i32; 64];
    let mut via = [0u16; 64];
    let mut marks = data_sets::below(n);
    for _k in 0..=n {
        marks = pass(&mut row, &mut via, marks, es, order, n);
        if marks == 0 {
            return true;
        }
        let x = data_bits::lowest(marks);
        let y = far_back(es.words, &via, x, n);
        if closes_above(es.words, &via, y, n) {
            return false;
        }
    }
    false
}
