// Whether the waits can be put in: refusal 28. The edges with their waits are tried as the edges as sent are for 8 and 10.
#![tactic(auto)]

ghost use Rattle.std.specs.Prelude.{◌≡◌, false, not, ◌&&◌, ◌||◌, ℕ, ◌<◌, ◌≤◌, ltb, length};
ghost use Rattle.definitions.specs.Answers.{closes_circle, infeasible, unserializable};
ghost use Rattle.definitions.specs.Basics.{any};
ghost use Rattle.definitions.specs.Limits.{most_gain, most_steps};
ghost use Rattle.definitions.specs.Links.{members};
ghost use Rattle.definitions.specs.Waits.{serialized, wait_maps};
ghost use Rattle.data_lists.specs.Graphs.{edges_in};
ghost use Rattle.data_edges.specs.Serial.{leasts_in};
ghost use Rattle.data_edges.specs.Words.{graph};
ghost use Rattle.order_steps.specs.Orders.{precedes};
ghost use Rattle.data_relations.specs.Rows.{row_bit};
ghost use Rattle.theory.specs.Graphs.{Gains, Shape, SheetLeasts, Well};
ghost use Rattle.judge_serial.specs.Waiting.{Waiting};

use data_lists::Edges;

// Whether some return counts from a finish: the union of the words has the mark late where one of them has. The loop has no branch, so that it goes over several words at a time.
fn has_late(es: &[u64]) -> bool
    ensures { result ≡ any (λ e. e.late) (graph es.now) }
{
    let mut seen = 0;
    for &w in es {
        seen = data_sets::union(seen, w);
    }
    data_edges::is_late(seen)
}

// Bit u of row v, below n: a forward edge leads from u to v, or v waits for u.
fn waited_rows(es: &[u64], maps: &[u64; 64], n: usize) -> [u64; 64]
    requires { n ≤ 64 }
    ensures { (length result ≡ 64) × ((v u : ℕ) → row_bit result v u ≡ (ltb v n && (any (precedes v u) (graph es.now) || row_bit maps.now v u))) }
{
    let mut before = [0u64; 64];
    let mut counted = [0u64; 64];
    order_steps::predecessors(es, &mut before, &mut counted);
    let mut rows = [0u64; 64];
    for v in 0..n {
        let row = data_sets::union(before[v], maps[v]);
        rows[v] = row;
    }
    rows
}

// Whether forward edges and waits close a circle. What they weigh does not matter.
fn closes_circle(es: &[u64], maps: &[u64; 64], n: usize) -> bool
    requires { n ≤ 64 }
    ensures { (least : ℕ → ℕ) → Shape n (members (graph es.now)) → maps.now ≡ wait_maps n (graph es.now) → result ≡ closes_circle n (serialized n least (graph es.now)) }
{
    let rows = waited_rows(es, maps, n);
    let mut order = [0u8; 64];
    !order_steps::arrange(&rows, n, &mut order)
}

// Whether start times keep edges and waits while each step lasts its least: whether the source's column of the working table is settled. The source is the only anchor, and its column the first.
// Of edges to which 10 applies nothing is promised.
fn leaves_times(es: Edges, leasts: &[u16; 64], maps: &[u64; 64], order: &[u8; 64], n: usize) -> bool
    requires some { 1 ≤ n }
    requires few { n ≤ most_steps }
    ensures { Well n (members (edges_in es.entry)) → Gains (members (edges_in es.entry)) most_gain → SheetLeasts (leasts_in leasts.now) (members (edges_in es.entry)) → maps.now ≡ wait_maps n (edges_in es.entry) → closes_circle n (serialized n (leasts_in leasts.now) (edges_in es.entry)) ≡ false → result ≡ not (infeasible n (serialized n (leasts_in leasts.now) (edges_in es.entry))) }
{
    let mut d = [[walk_cells::NONE; 64]; 64];
    let mut number = [64u8; 64];
    let sets = [1u64; 64];
    if !walk_heaviest::walks_if_possible(&mut d, &mut number, es, leasts, maps, &sets, order, n) {
        return false;
    }
    if walk_cells::is_none(d[0][0]) {
        return false;
    }
    walk_settled::settled(&d, es.words, leasts, maps, n)
}

// Whether the waits can be put in, for edges that can be scheduled. Where no return counts from a finish they always can. The order decides speed alone.
pub fn can_serialize(
    es: Edges,
    leasts: &[u16; 64],
    maps: &[u64; 64],
    order: &[u8; 64],
    n: usize,
) -> bool
    requires some { 1 ≤ n }
    requires few { n ≤ most_steps }
    ensures { Waiting n (leasts_in leasts.now) (edges_in es.entry) maps.now → result ≡ not (unserializable n (leasts_in leasts.now) (edges_in es.entry)) }
{
    if !has_late(es.words) {
        return true;
    }
    if closes_circle(es.words, maps, n) {
        return false;
    }
    leaves_times(es, leasts, maps, order, n)
}
