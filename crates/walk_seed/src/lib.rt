// What the columns of a working table begin with, and their numbers: see specs/Seeds.antt.
#![tactic(auto)]

ghost use Rattle.std.specs.Prelude.{◌≡◌, true, false, ℕ, ◌+◌, ◌<◌, ◌≤◌, length};
ghost use Rattle.definitions.specs.Basics.{any_below, test_bit};
ghost use Rattle.definitions.specs.Links.{members};
ghost use Rattle.data_edges.specs.Serial.{leasts_in};
ghost use Rattle.data_edges.specs.Words.{graph, unpack};
ghost use Rattle.data_relations.specs.Rows.{row_bit};
ghost use Rattle.walk_cells.specs.Tables.{Rows, Square, Target};
ghost use Rattle.walk_edge.specs.Columns.{Only};
ghost use Rattle.walk_seed.specs.Seeds.{AllPlaced, Blank, BegunAll, Idle, Leading, Numbered, Placed, Prepared, Raised, Seedable, Seeded};

use data_edges::{edge_from, edge_gain, edge_loss, edge_to, is_counted};

// The steps that stand in some row below n.
fn all_members(sets: &[u64; 64], n: usize) -> u64
    requires { n ≤ 64 }
    ensures { (a : ℕ) → test_bit result a ≡ any_below (λ v. row_bit sets.now v a) n }
{
    let mut all = 0u64;
    for v in 0..n {
        all = data_sets::union(all, sets[v]);
    }
    all
}

// Numbers for the members of a map, rising from 0. How many there are.
fn number_members(all: u64, number: &mut [u8; 64]) -> usize
    requires { Blank number.old }
    ensures { Numbered all result number.new }
{
    let mut width = 0u8;
    for a in data_bits::members(all) {
        number[a] = width;
        width += 1;
    }
    usize::from(width)
}

// The walks that weigh the leasts of their anchors at step v, in the columns of the members of a map.
fn seed_row(d: &mut [[i32; 64]], number: &[u8; 64], leasts: &[u16; 64], map: u64, v: usize)
    requires { (v < length d.old) × Square (length d.old) d.old }
    ensures { Seeded (leasts_in leasts.now) number.now (λ w a. (w ≡ v) × (a < 64) × (test_bit map a ≡ true)) d.old d.new }
{
    for a in data_bits::members(map) {
        let k = data_indices::place(number[a]);
        d[v][k] = walk_cells::of_least(leasts[a]);
    }
}

// The same at every step below n, by its row of sets.
fn seed_rows(d: &mut [[i32; 64]], number: &[u8; 64], leasts: &[u16; 64], sets: &[u64; 64], n: usize)
    requires { Rows n d.old }
    ensures { Seeded (leasts_in leasts.now) number.now (λ w a. (w < n) × (a < 64) × (row_bit sets.now w a ≡ true)) d.old d.new }
{
    for v in 0..n {
        seed_row(d, number, leasts, sets[v], v);
    }
}

// The cell of step v in column k becomes c, where that is more.
fn raise(d: &mut [[i32; 64]], v: usize, k: usize, c: i32)
    requires { Target v (k + 1) d.old }
    ensures { Raised v k c d.old d.new }
{
    if walk_cells::is_less(d[v][k], c) {
        d[v][k] = c;
    }
}

// The walk of one counted edge out of a step other than 0, in the column of that step where it has one.
fn seed_edge(d: &mut [[i32; 64]], number: &[u8; 64], w: u64)
    requires { Leading (unpack w) d.old }
    ensures { BegunAll (Only (unpack w)) number.now d.old d.new }
{
    let from = edge_from(w);
    if from == 0 {
        return;
    }
    let k = number[from];
    if 64 <= k {
        return;
    }
    let c = walk_cells::of_edge(edge_gain(w), edge_loss(w));
    raise(d, edge_to(w), data_indices::place(k), c);
}

// The same for any edge. One that gains nothing begins no walk that is not there.
fn seed_word(d: &mut [[i32; 64]], number: &[u8; 64], w: u64)
    requires { Placed (unpack w) d.old }
    ensures { BegunAll (Only (unpack w)) number.now d.old d.new }
{
    if !is_counted(w) {
        return;
    }
    if edge_gain(w) <= edge_loss(w) {
        return;
    }
    seed_edge(d, number, w);
}

// The edges of a list.
fn seed_words(d: &mut [[i32; 64]], number: &[u8; 64], es: &[u64])
    requires { AllPlaced es.now d.old }
    ensures { BegunAll (members (graph es.now)) number.now d.old d.new }
{
    for &w in es {
        seed_word(d, number, w);
    }
}

// The gain of a counted edge; 0 for another.
fn counted_gain(w: u64) -> u64
    ensures { (unpack w).counted ≡ true → result ≡ (unpack w).gain }
{
    let gain = edge_gain(w);
    if is_counted(w) { gain } else { 0 }
}

// Whether a counted edge gains, as one with a gap does. The loop has no branch, so that the compiler makes vectors of it.
fn begins_some(es: &[u64]) -> bool
    ensures { result ≡ false → Idle es.now (length es.now) }
{
    let mut all = 0u64;
    for &w in es {
        all |= counted_gain(w);
    }
    all != 0
}

// The edges of a list, where one of them may begin a walk that is not there.
fn seed_edges(d: &mut [[i32; 64]], number: &[u8; 64], es: &[u64])
    requires { AllPlaced es.now d.old }
    ensures { BegunAll (members (graph es.now)) number.now d.old d.new }
{
    if begins_some(es) {
        seed_words(d, number, es);
    }
}

// Numbers for the members of the rows of sets below n, and what their columns begin with, in an empty table. How many columns there are.
pub fn seed(
    d: &mut [[i32; 64]],
    number: &mut [u8; 64],
    es: &[u64],
    leasts: &[u16; 64],
    sets: &[u64; 64],
    n: usize,
) -> usize
    requires { Seedable n es.now number.old d.old }
    ensures { Prepared (leasts_in leasts.now) (members (graph es.now)) sets.now n result number.new (length d.old) d.new }
{
    let all = all_members(sets, n);
    let width = number_members(all, number);
    seed_rows(d, number, leasts, sets, n);
    seed_edges(d, number, es);
    width
}
