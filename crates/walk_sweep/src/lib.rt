// Steps that hand on, along their edges and to what waits for them, the rows that were raised since they last did. See walk_edge's specs/Columns.antt and specs/Graphs.antt.
#![tactic(auto)]

ghost use Rattle.std.specs.Prelude.{◌≡◌, List, ℕ, ◌-◌, ◌<◌, ◌≤◌, pos, length};
ghost use Rattle.definitions.specs.Links.{UsableFrom, members};
ghost use Rattle.data_edges.specs.Serial.{leasts_in};
ghost use Rattle.data_lists.specs.Graphs.{edges_in};
ghost use Rattle.walk_lift.specs.Lifts.{Liftable, Raised, lent};
ghost use Rattle.walk_edge.specs.Columns.{HandedAll, WaitsFor};
ghost use Rattle.walk_sweep.specs.Graphs.{Next, Pushable, Sweepable, SweptBy, Tellable, Visitable, visits};

use data_lists::Edges;
use walk_edge::push_word;
use walk_lift::raise_row;
use walk_take::{extent, take};

// The visits of a sweep by the order, beyond one of each step.
const SPARE_VISITS: usize = 96;

// The edges out of u hand on a row.
fn push_row(
    d: &mut [[i32; 64]],
    row: &[i32; 64],
    marks: u64,
    es: Edges,
    u: usize,
    top: u32,
    number: &[u8; 64],
    width: usize,
) -> u64
    requires { Pushable u width top es.words.now row.now d.old }
    ensures { HandedAll (λ a. UsableFrom (members (edges_in es.entry)) a) number.now u (lent row.now width) d.old d.new marks result }
{
    let mut left = marks;
    for k in es.out_of(u) {
        left = push_word(d, row, left, es.words[k], top, number, width);
    }
    left
}

// A row that waits is handed another, later by a least. Most steps have none: what adds nothing is made into faster code.
fn raise_by(
    d: &mut [[i32; 64]],
    row: &[i32; 64],
    to: usize,
    least: u16,
    width: usize,
    marks: u64,
) -> u64
    requires { (to < 64) × Liftable to width (pos least) row.now d.old }
    ensures { Raised (λ k. k < width) to (pos least) row.now d.old d.new marks result }
{
    if least == 0 {
        return raise_row(d, row, to, 0, width, marks);
    }
    raise_row(d, row, to, walk_cells::of_least(least), width, marks)
}

// What waits for u, by a map, is handed the row, later by the least of u.
fn push_waits(
    d: &mut [[i32; 64]],
    row: &[i32; 64],
    marks: u64,
    waiting: u64,
    least: u16,
    width: usize,
) -> u64
    requires { Tellable waiting width row.now d.old }
    ensures { (u : ℕ) (number : List ℕ) → HandedAll (λ a. WaitsFor least u waiting) number u (lent row.now width) d.old d.new marks result }
{
    let mut left = marks;
    for i in data_bits::members(waiting) {
        left = raise_by(d, row, i, least, width, left);
    }
    left
}

// Step u hands on, where it has a mark. The row is lent to it as a place to work in.
fn hand_on(
    d: &mut [[i32; 64]],
    row: &mut [i32; 64],
    marks: u64,
    es: Edges,
    leasts: &[u16; 64],
    waiting: &[u64; 64],
    u: usize,
    number: &[u8; 64],
    width: usize,
) -> u64
    requires { Visitable u width es.words.now waiting.now row.old d.old }
    ensures { SweptBy es.entry.words.now (leasts_in leasts.now) waiting.now number.now width (λ v. v ≡ u) 1 d.old d.new marks result × (length row.new ≡ 64) }
{
    if !data_bits::has(marks, u) {
        return marks;
    }
    let rest = data_bits::remove(marks, u);
    let own = extent(&d[u], width);
    let top = take(d, u, row, own);
    let left = push_row(d, row, rest, es, u, top, number, own);
    push_waits(d, row, left, waiting[u], leasts[u], own)
}

// The places of steps, put to a map of places.
fn noted(hint: u64, fresh: u64, place: &[u8; 64]) -> u64 {
    let mut all = hint;
    for v in data_bits::members(fresh) {
        all = data_bits::insert(all, data_indices::place(place[v]));
    }
    all
}

// A step below n: x where it is one.
fn step_below(x: usize, n: usize) -> usize
    requires { 1 ≤ n }
    ensures { result < n }
{
    if x < n { x } else { 0 }
}

// The step to visit next, where k visits are left: of those in the hint the one with the lowest place in the order; at the end every step below n, from the last to the first.
fn next_step(k: usize, n: usize, hint: u64, left: u64, order: &[u8; 64]) -> usize
    requires { Next k n left }
    ensures { (result < n) × (k ≤ n → result ≡ k - 1) }
{
    if k <= n {
        return k - 1;
    }
    if hint == 0 {
        return step_below(data_bits::lowest(left), n);
    }
    step_below(data_indices::place(order[data_bits::lowest(hint)]), n)
}

// A map without its smallest member, if it has one.
fn rest_of(m: u64) -> u64 {
    if m == 0 {
        0
    } else {
        data_bits::without_lowest(m)
    }
}

// Steps hand on until no mark is left, or for long enough that each step below n has done so: by n and some spare visits, and then one of each step. A step that gets a mark comes into the hint by its
// place. What hint, order and places are decides only how many visits there are. At first every step has a mark, so the marks are the hint.
pub fn sweep(
    d: &mut [[i32; 64]],
    marks: u64,
    es: Edges,
    leasts: &[u16; 64],
    waiting: &[u64; 64],
    order: &[u8; 64],
    place: &[u8; 64],
    number: &[u8; 64],
    width: usize,
    n: usize,
) -> u64
    requires { Sweepable 1 n width es.words.now waiting.now d.old }
    ensures { SweptBy es.entry.words.now (leasts_in leasts.now) waiting.now number.now width (λ v. v < n) (visits n) d.old d.new marks result }
{
    let mut row = [walk_cells::NONE; 64];
    let mut left = marks;
    let mut hint = marks;
    for k in (1..=n + (n + SPARE_VISITS)).rev() {
        if left == 0 {
            return left;
        }
        let u = next_step(k, n, hint, left, order);
        let before = left;
        left = hand_on(d, &mut row, before, es, leasts, waiting, u, number, width);
        hint = noted(rest_of(hint), data_sets::minus(left, before), place);
    }
    left
}
