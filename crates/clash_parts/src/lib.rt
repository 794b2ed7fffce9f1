// Request L14, "the few records that clash": what makes the words of a part of a sheet's records. Words stand for edges, as in the crate data_edges.
#![tactic(auto)]

ghost use Rattle.std.specs.Prelude.{◌≡◌, ℕ, ◌≤◌, length};
ghost use Rattle.std.proofs.Math.Seq.{paste};
ghost use Rattle.definitions.specs.Basics.{any, test_bit};
ghost use Rattle.definitions.specs.Limits.{most_steps};
ghost use Rattle.data_edges.specs.Words.{graph, unpack};
ghost use Rattle.data_lists.specs.Lists.{Empty};
ghost use Rattle.read_links.specs.Completes.{Completable};
ghost use Rattle.clash_parts.specs.Words.{pair_rank, enters, Ends, Begins, Room};
ghost use Rattle.clash_parts.specs.Completed.{PartCompletes};

use data_edges::{edge_from, edge_to, is_back};

// The place of the pair of the link that a word stands for among all pairs of steps.
fn pair_of(w: u64) -> usize
    ensures { result ≡ pair_rank (unpack w) }
{
    if is_back(w) {
        return edge_to(w) * 64 + edge_from(w);
    }
    edge_from(w) * 64 + edge_to(w)
}

// Where the words begin that have the pair of the last one before place `end`: those of one record.
pub fn record_start(es: &[u64], end: usize) -> usize
    requires { Ends es.now end }
    ensures { Begins es.now end result }
{
    let pair = pair_of(es[end - 1]);
    for first in (1..end).rev() {
        if pair_of(es[first - 1]) != pair {
            return first;
        }
    }
    0
}

// These words, from place `at` on, over those that stand there.
pub fn put(words: &mut [u64], at: usize, these: &[u64])
    requires { Room words.old at these.now }
    ensures { words.new ≡ paste words.old at these.now (length these.now) }
{
    words[at..at + these.len()].copy_from_slice(these);
}

// The map of the steps that forward edges lead into.
fn entered(es: &[u64]) -> u64
    ensures { (v : ℕ) → test_bit result v ≡ any (enters v) (graph es.now) }
{
    let mut m = 0;
    for w in es {
        m = data_bits::insert_if(m, edge_to(*w), !is_back(*w));
    }
    m
}

// Behind the first count words, of any links, those of the links that are added to these alone (request L3): step 0 is open, and adds nothing. It says how many words there are then.
pub fn complete_part(es: &mut [u64], count: usize, n: usize) -> usize
    requires { Completable n es.old count }
    ensures { PartCompletes n es.old es.new count result }
{
    let map = entered(&es[..count]);
    read_links::complete(es, count, map, n, 0)
}

// Makes the adjacency lists of all steps empty (see the crate data_lists).
pub fn clear(lists: &mut [u16])
    requires { most_steps ≤ length lists.old }
    ensures { Empty lists.new }
{
    lists[..64].fill(0);
}
