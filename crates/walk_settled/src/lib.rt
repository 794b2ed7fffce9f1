// Whether start times are left: every edge, and every wait, has handed on in the source's column of the working table. See specs/Settled.antt.
#![tactic(auto)]

ghost use Rattle.std.specs.Prelude.{◌≡◌, ◌++◌, ◌<◌, ◌≤◌, leb, get_or};
ghost use Rattle.definitions.specs.Basics.{all, all_below};
ghost use Rattle.definitions.specs.Rounds.{entry, extend};
ghost use Rattle.data_edges.specs.Serial.{Within, leasts_in, wait_edges};
ghost use Rattle.data_edges.specs.Words.{graph, unpack};
ghost use Rattle.walk_cells.specs.Tables.{Square, said};
ghost use Rattle.walk_settled.specs.Settled.{Fields, handed_on, waits_handed_on};

use data_edges::{edge_from, edge_gain, edge_loss, edge_to};

// Whether an edge, by its fields, has handed on.
fn handed(d: &[[i32; 64]; 64], from: usize, to: usize, gain: u64, loss: u64) -> bool
    requires { Fields from to gain loss d.now }
    ensures { result ≡ leb (extend (entry (said d.now) from 0) gain loss) (entry (said d.now) to 0) }
{
    walk_cells::has_handed(d[from][0], gain, loss, d[to][0])
}

// Whether an edge, by its word, has.
fn handed_word(d: &[[i32; 64]; 64], w: u64) -> bool
    requires { Square 64 d.now }
    ensures { result ≡ handed_on (said d.now) (unpack w) }
{
    let from = edge_from(w);
    let to = edge_to(w);
    let gain = edge_gain(w);
    let loss = edge_loss(w);
    handed(d, from, to, gain, loss)
}

// Whether every edge has.
fn settled_edges(d: &[[i32; 64]; 64], es: &[u64]) -> bool
    requires { Square 64 d.now }
    ensures { result ≡ all (handed_on (said d.now)) (graph es.now) }
{
    es.iter().all(|&w| handed_word(d, w))
}

// Whether a wait of step `to` has, by the least of the step that it waits for.
fn handed_wait(d: &[[i32; 64]; 64], from: usize, to: usize, least: u16) -> bool
    requires { (from < 64) × (to < 64) × Square 64 d.now }
    ensures { result ≡ leb (extend (entry (said d.now) from 0) least 0) (entry (said d.now) to 0) }
{
    handed(d, from, to, u64::from(least), 0)
}

// Whether every wait of step i has, by the map of what it waits for.
fn settled_row(d: &[[i32; 64]; 64], leasts: &[u16; 64], map: u64, i: usize) -> bool
    requires { (i < 64) × Square 64 d.now }
    ensures { result ≡ waits_handed_on (said d.now) (leasts_in leasts.now) map i }
{
    for a in data_bits::members(map) {
        if !handed_wait(d, a, i, leasts[a]) {
            return false;
        }
    }
    true
}

// Whether every wait of the steps below n has.
fn settled_waits(d: &[[i32; 64]; 64], leasts: &[u16; 64], maps: &[u64; 64], n: usize) -> bool
    requires { (n ≤ 64) × Square 64 d.now }
    ensures { result ≡ all_below (λ i. waits_handed_on (said d.now) (leasts_in leasts.now) (get_or maps.now i 0) i) n }
{
    for i in 0..n {
        if !settled_row(d, leasts, maps[i], i) {
            return false;
        }
    }
    true
}

// Whether every edge and every wait that maps hold has handed on.
pub fn settled(
    d: &[[i32; 64]; 64],
    es: &[u64],
    leasts: &[u16; 64],
    maps: &[u64; 64],
    n: usize,
) -> bool
    requires { (n ≤ 64) × Square 64 d.now }
    ensures { Within n maps.now → result ≡ all (handed_on (said d.now)) (graph es.now ++ wait_edges n (leasts_in leasts.now) maps.now) }
{
    if !settled_edges(d, es) {
        return false;
    }
    settled_waits(d, leasts, maps, n)
}
