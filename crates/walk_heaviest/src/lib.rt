// Heaviest walks for every anchor at once: the columns of the anchors are numbered and begun, and steps hand on until nothing is left to hand on.
#![tactic(auto)]

ghost use Rattle.std.specs.Prelude.{◌≡◌, true, List, ◌-◌, ◌≤◌, ℤ};
ghost use Rattle.data_lists.specs.Graphs.{edges_in};
ghost use Rattle.definitions.specs.Limits.{most_steps};
ghost use Rattle.definitions.specs.Links.{members};
ghost use Rattle.data_edges.specs.Serial.{leasts_in};
ghost use Rattle.walk_feasible.specs.Search.{rests};
ghost use Rattle.walk_sweep.specs.Graphs.{Sweepable};
ghost use Rattle.theory.specs.Graphs.{Rooted, Shape};
ghost use Rattle.walk_heaviest.specs.Settling.{Found, Opened, Seekable, SettledBy, SettledIf, SettlingBy};

use data_lists::Edges;
use data_relations::transpose;
use walk_feasible::feasible;
use walk_seed::seed;
use walk_sweep::sweep;

// The places of the steps of an order. They decide speed alone, so nothing is promised.
fn places(order: &[u8; 64], n: usize) -> [u8; 64]
    requires { n ≤ most_steps }
{
    let mut place = [0u8; 64];
    for k in 0..n {
        let v = data_indices::place(order[k]);
        place[v] = k as u8;
    }
    place
}

// The first sweep. At first every step has a mark.
fn sweep_first(
    d: &mut [[i32; 64]],
    es: Edges,
    leasts: &[u16; 64],
    waiting: &[u64; 64],
    order: &[u8; 64],
    place: &[u8; 64],
    number: &[u8; 64],
    width: usize,
    n: usize,
) -> u64
    requires { Sweepable 1 n width es.words.now waiting.now d.old }
    ensures { Opened es.entry.words.now (leasts_in leasts.now) waiting.now number.now width n d.old d.new result }
{
    let marks = data_sets::below(n);
    sweep(
        d, marks, es, leasts, waiting, order, place, number, width, n,
    )
}

// The sweeps after the first, until there have been n, or fewer where nothing is left to hand on.
fn sweep_on(
    d: &mut [[i32; 64]],
    marks: u64,
    es: Edges,
    leasts: &[u16; 64],
    waiting: &[u64; 64],
    order: &[u8; 64],
    place: &[u8; 64],
    number: &[u8; 64],
    width: usize,
    n: usize,
)
    requires { Sweepable (most_steps - 1) n width es.words.now waiting.now d.old }
    ensures { (d₀ : List (List ℤ)) → SettlingBy es.entry.words.now (leasts_in leasts.now) waiting.now number.now width n 1 d₀ d.old marks → SettledBy es.entry.words.now (leasts_in leasts.now) waiting.now number.now width n d₀ d.new }
{
    let mut left = marks;
    for k in 1..n {
        if left == 0 {
            return;
        }
        left = sweep(d, left, es, leasts, waiting, order, place, number, width, n);
    }
}

// Whether no closed walk weighs more than 0: refusal 10. A first sweep that left no mark says so; else a search of its own does.
fn possible(marks: u64, es: Edges, order: &[u8; 64], n: usize) -> bool
    requires some { 1 ≤ n }
    requires few { n ≤ most_steps }
    ensures { Shape n (members (edges_in es.entry)) → Rooted n (members (edges_in es.entry)) → (marks ≡ 0 → rests n es.entry.words.now ≡ true) → result ≡ rests n es.entry.words.now }
{
    if marks == 0 {
        return true;
    }
    feasible(es, order, n)
}

// All sweeps, where no closed walk over the edges weighs more than 0; else false, refusal 10. The first sweep mostly tells.
fn settle(
    d: &mut [[i32; 64]],
    es: Edges,
    leasts: &[u16; 64],
    waiting: &[u64; 64],
    order: &[u8; 64],
    number: &[u8; 64],
    width: usize,
    n: usize,
) -> bool
    requires { Sweepable most_steps n width es.words.now waiting.now d.old }
    ensures { SettledIf es.entry.words.now (leasts_in leasts.now) waiting.now number.now width n d.old d.new result }
{
    let place = places(order, n);
    let marks = sweep_first(d, es, leasts, waiting, order, &place, number, width, n);
    if !possible(marks, es, order, n) {
        return false;
    }
    sweep_on(
        d, marks, es, leasts, waiting, order, &place, number, width, n,
    );
    true
}

// The heaviest walks, as Found says (specs/Settling.antt), where no closed walk over the edges weighs more than 0; else false, refusal 10. The order decides speed alone.
// The numbers of the columns come blank.
pub fn walks_if_possible(
    d: &mut [[i32; 64]],
    number: &mut [u8; 64],
    es: Edges,
    leasts: &[u16; 64],
    maps: &[u64; 64],
    sets: &[u64; 64],
    order: &[u8; 64],
    n: usize,
) -> bool
    requires { Seekable n es.words.now number.old d.old }
    ensures { Found n es.entry.words.now (leasts_in leasts.now) maps.now sets.now number.new d.old d.new result }
{
    let mut waiting = [0u64; 64];
    transpose(maps, n, &mut waiting);
    let width = seed(d, number, es.words, leasts, sets, n);
    settle(d, es, leasts, &waiting, order, number, width, n)
}
