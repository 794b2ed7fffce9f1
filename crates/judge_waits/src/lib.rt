// Refusal 11 and the waits, from what reaches what and the anchor sets: see specs/Reaching.antt.
#![tactic(auto)]

ghost use Rattle.std.specs.Prelude.{◌≡◌, true, ℕ, ◌≤◌, length, get_or, replicate};
ghost use mathlib.Core.List.{List, flat_map};
ghost use Rattle.definitions.specs.Answers.{inconsistent};
ghost use Rattle.definitions.specs.Basics.{any_below, select_below, tabulate, test_bit};
ghost use Rattle.definitions.specs.Links.{Edge};
ghost use Rattle.definitions.specs.Waits.{wait_count, wait_maps};
ghost use Rattle.data_edges.specs.Words.{unpack};
ghost use Rattle.data_lists.specs.Graphs.{edges_in};
ghost use Rattle.data_relations.specs.Rows.{row_bit, Gathered};
ghost use Rattle.judge_waits.specs.Reaching.{Held, Reaches, Known, holds_up};

use data_lists::Edges;

// Refusal 11: a step waits for its own end.
pub fn is_inconsistent(reach: &[u64; 64], n: usize) -> bool
    requires { n ≤ 64 }
    ensures bits { result ≡ any_below (λ v. row_bit reach.now v v) n }
    ensures waiting { (g : List Edge) → Reaches n g reach.now → result ≡ inconsistent n g }
{
    data_relations::has_loop(reach, n)
}

// A return: what reaches its start, may use it and is not in its end's set comes into the map of its end.
fn hold_up(maps: &mut [u64; 64], w: u64, reach: &[u64; 64], sets: &[u64; 64])
    requires { (unpack w).back ≡ true }
    ensures { Held (holds_up reach.now sets.now) (unpack w) maps.old maps.new }
{
    let j = data_edges::edge_from(w);
    let i = data_edges::edge_to(w);
    let users = data_edges::usable_by(reach[j], w);
    let held = data_sets::minus(users, sets[i]);
    maps[i] = data_sets::union(maps[i], held);
}

// The waits of a sheet of n steps, into maps that are blank, bit a of map i: each backward edge from j to i makes i wait for what reaches j, but a late one not for i itself.
pub fn wait_maps(es: Edges, reach: &[u64; 64], sets: &[u64; 64], maps: &mut [u64; 64])
    requires { maps.old ≡ replicate 64 0 }
    ensures bits { Gathered (holds_up reach.now sets.now) (edges_in es.entry) maps.new }
    ensures definition { (n : ℕ) → Known n (edges_in es.entry) reach.now sets.now → maps.new ≡ wait_maps n (edges_in es.entry) }
{
    for k in es.returns() {
        hold_up(maps, es.words[k], reach, sets);
    }
}

// How many waits the maps hold.
pub fn count_waits(maps: &[u64; 64], n: usize) -> u32
    requires { n ≤ 64 }
    ensures members { result ≡ length (flat_map (λ i. select_below (test_bit (get_or maps.now i 0)) 64) (tabulate (λ i. i) n)) }
    ensures waits { (g : List Edge) → maps.now ≡ wait_maps n g → result ≡ wait_count n g }
{
    let mut total = 0;
    for i in 0..n {
        total += data_sets::count(maps[i]);
    }
    total
}
