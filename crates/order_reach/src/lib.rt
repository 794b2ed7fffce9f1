// Which anchors reach which vertices: each step hands on, along its edges, the anchors of its row, in an order and back, until nothing is left to hand on. See specs/Pushes.antt.
#![tactic(auto)]

ghost use Rattle.std.specs.Prelude.{◌≡◌, cond, true, false, ◌<◌, ◌≤◌, replicate};
ghost use Rattle.data_relations.specs.Sets.{AnchorSets};
ghost use Rattle.definitions.specs.Limits.{most_steps};
ghost use Rattle.definitions.specs.Links.{UsableFrom, members};
ghost use Rattle.data_edges.specs.Words.{unpack};
ghost use Rattle.data_lists.specs.Graphs.{edges_in};
ghost use Rattle.order_reach.specs.Pushes.{Begun, HandedAll, HomedAll, Joined, Reached, Returned, Stripped, CarriedAll};

use data_edges::{edge_from, edge_to, is_counted, is_late, usable_by};
use data_lists::Edges;

// Of two maps the one that an edge starts from: all where it is counted.
fn begun(m: u64, all: u64, w: u64) -> u64
    ensures { result ≡ cond (unpack w).counted all m }
{
    if is_counted(w) { all } else { m }
}

// The anchors in h come into row v. Where it grows, v gets a mark. The marks after it. No branch: whether a row grows is hard to foresee.
fn join(rows: &mut [u64; 64], marks: u64, v: usize, h: u64) -> u64
    requires { v < 64 }
    ensures { Joined v h rows.old rows.new marks result }
{
    let old = rows[v];
    let new = data_sets::union(old, h);
    rows[v] = new;
    data_bits::insert_if(marks, v, new != old)
}

// One edge hands on. Few are late: they have a branch of their own, so that the others pay one test.
fn push_word(rows: &mut [u64; 64], marks: u64, w: u64, m: u64, all: u64) -> u64
    requires { Begun (unpack w).from m all }
    ensures { HandedAll (λ a. UsableFrom (λ e. e ≡ unpack w) a) (unpack w).from m rows.old rows.new marks result }
{
    let to = edge_to(w);
    let given = begun(m, all, w);
    if is_late(w) {
        let some = usable_by(given, w);
        return join(rows, marks, to, some);
    }
    join(rows, marks, to, given)
}

// The edges out of u.
fn push_edges(rows: &mut [u64; 64], marks: u64, es: Edges, u: usize, m: u64) -> u64
    requires { u < 64 }
    ensures { HandedAll (λ a. UsableFrom (members (edges_in es.entry)) a) u m rows.old rows.new marks result }
{
    let all = data_bits::insert_if(m, u, u != 0);
    let mut left = marks;
    for k in es.out_of(u) {
        left = push_word(rows, left, es.words[k], m, all);
    }
    left
}

// Step u hands on, where it has a mark.
fn visit(rows: &mut [u64; 64], marks: u64, es: Edges, u: usize) -> u64
    requires { u < 64 }
    ensures { CarriedAll (λ a. UsableFrom (members (edges_in es.entry)) a) (λ v. v ≡ u) rows.old rows.new marks result }
{
    if !data_bits::has(marks, u) {
        return marks;
    }
    let rest = data_bits::remove(marks, u);
    let m = rows[u];
    push_edges(rows, rest, es, u, m)
}

// The steps of an order, one after another. What the order is decides only how much is left to do.
fn carry_on(rows: &mut [u64; 64], marks: u64, es: Edges, order: &[u8; 64], n: usize) -> u64
    requires { n ≤ 64 }
    ensures { CarriedAll (λ a. UsableFrom (members (edges_in es.entry)) a) (λ v. ⊥) rows.old rows.new marks result }
{
    let mut left = marks;
    for &x in &order[..n] {
        left = visit(rows, left, es, data_indices::place(x));
    }
    left
}

// Every step below n, from the last to the first: returns mostly lead to lower steps.
fn carry_back(rows: &mut [u64; 64], marks: u64, es: Edges, n: usize) -> u64
    requires { n ≤ 64 }
    ensures { CarriedAll (λ a. UsableFrom (members (edges_in es.entry)) a) (λ v. v < n) rows.old rows.new marks result }
{
    let mut left = marks;
    for k in (0..n).rev() {
        left = visit(rows, left, es, k);
    }
    left
}

// One trip, there and back: the order settles the forward edges, the way back the returns.
fn carry(rows: &mut [u64; 64], marks: u64, es: Edges, order: &[u8; 64], n: usize) -> u64
    requires { n ≤ 64 }
    ensures { CarriedAll (λ a. UsableFrom (members (edges_in es.entry)) a) (λ v. v < n) rows.old rows.new marks result }
{
    let left = carry_on(rows, marks, es, order, n);
    if left == 0 {
        return left;
    }
    carry_back(rows, left, es, n)
}

// The anchor sets of n steps without step 0, into rows that are blank.
fn strip(rows: &mut [u64; 64], sets: &[u64; 64], n: usize)
    requires { (n ≤ 64) × (rows.old ≡ replicate 64 0) }
    ensures { Stripped sets.now n rows.new }
{
    for v in 0..n {
        rows[v] = data_bits::remove(sets[v], 0);
    }
}

// A return hands on what its start has.
fn push_return(rows: &mut [u64; 64], marks: u64, w: u64) -> u64
    requires { (unpack w).back ≡ true }
    ensures { Returned (unpack w) rows.old rows.new marks result }
{
    let from = edge_from(w);
    let to = edge_to(w);
    let h = usable_by(rows[from], w);
    join(rows, marks, to, h)
}

// Every return, one after another. The marks of the rows that grew.
fn push_returns(rows: &mut [u64; 64], es: Edges) -> u64
    ensures { HomedAll (members (edges_in es.entry)) rows.old rows.new result }
{
    let mut marks = 0;
    for k in es.returns() {
        marks = push_return(rows, marks, es.words[k]);
    }
    marks
}

// From the anchor sets, in which the forward edges have handed on: the returns once, and then trips until nothing is left to hand on, n at most, since on a sheet of n steps no anchor needs more. The order decides speed alone.
// False only where no return brought anything new: then the rows are the anchor sets without step 0.
pub fn reach(es: Edges, order: &[u8; 64], sets: &[u64; 64], n: usize, rows: &mut [u64; 64]) -> bool
    requires { (n ≤ most_steps) × (rows.old ≡ replicate 64 0) }
    ensures walks { AnchorSets n (edges_in es.entry) sets.now → Reached n (edges_in es.entry) rows.new }
    ensures nothing_new { result ≡ false → Stripped sets.now n rows.new }
{
    strip(rows, sets, n);
    let mut marks = push_returns(rows, es);
    if marks == 0 {
        return false;
    }
    for _done in 0..n {
        if marks == 0 {
            return true;
        }
        marks = carry(rows, marks, es, order, n);
    }
    true
}
