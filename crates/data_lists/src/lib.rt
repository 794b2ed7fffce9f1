// Adjacency lists: the edges that leave a step, one after the other, and the returns, one after the other (see specs/Lists.antt).
#![tactic(auto)]

ghost use Rattle.std.specs.Prelude.{◌≡◌, ◌+◌, ◌-◌, ◌<◌, ◌≤◌, get_or, length};
ghost use Rattle.std.specs.Iterator.{at_most};
ghost use Rattle.definitions.specs.Limits.{most_edges};
ghost use Rattle.data_edges.specs.Words.{unpack};
ghost use Rattle.data_lists.specs.Lists.{Appended, AtReturn, Lists, NextOut, NextReturn, Unlisted, last_from, put_first};

use data_edges::{edge_from, is_back};

// The edges of a sheet as words, with their adjacency lists.
#[derive(Clone, Copy)]
pub struct Edges<'a> {
    pub words: &'a [u64],
    pub lists: &'a [u16],
    pub ghost listed: { Lists words.now lists.now },
}

// The edges that leave a step, the last one first: its adjacency list.
#[derive(Drop)]
pub struct OutOf<'a> {
    pub es: Edges<'a>,
    // One more than the index of the edge that comes next, 0 at the end.
    pub next: usize,
    ghost inside: { next ≤ length es.words.now },
}

// The returns, the first one first.
#[derive(Drop)]
pub struct EachReturn<'a> {
    pub es: Edges<'a>,
    // The place of the number in `next`.
    pub at: usize,
    // One more than the index of the return that comes next, 0 at the end.
    pub next: usize,
    ghost stands: { AtReturn es.words.now at next },
}

// Edge k, whose word is w, before those of its start that are listed.
fn link(lists: &mut [u16], w: u64, k: usize)
    requires { (k < most_edges) × (64 + k < length lists.old) }
    ensures { lists.new ≡ put_first lists.old (unpack w).from k }
{
    let from = edge_from(w);
    lists[64 + k] = lists[from];
    lists[from] = (k + 1) as u16;
}

// Edge k, whose word is w, behind the returns, at place `at`, which it keeps where it is one. The place of the next. No jump: whether an edge is a return is hard to foresee.
fn append(lists: &mut [u16], at: usize, w: u64, k: usize) -> usize
    requires { (k < most_edges) × (at < length lists.old) }
    ensures { Appended (unpack w).back at k lists.old lists.new result }
{
    lists[at] = (k + 1) as u16;
    if is_back(w) {
        return at + 1;
    }
    at
}

// The lists of all edges and the list of the returns, into numbers that hold none yet.
pub fn list(es: &[u64], lists: &mut [u16])
    requires { Unlisted es.now lists.old }
    ensures { Lists es.now lists.new }
{
    let mut at = 64 + es.len();
    for (k, &w) in es.iter().enumerate() {
        link(lists, w, k);
        at = append(lists, at, w, k);
    }
    lists[at] = 0;
}

impl<'a> Edges<'a> {
    // The indices of the edges that leave u.
    pub fn out_of(self, u: usize) -> OutOf<'a>
        requires { u < 64 }
        ensures { (result.es ≡ self.entry) × (result.next ≡ last_from self.entry.words.now u (length self.entry.words.now)) }
    {
        OutOf {
            es: self,
            next: usize::from(self.lists[u]),
        }
    }

    // The indices of the returns.
    pub fn returns(self) -> EachReturn<'a>
        ensures { (result.es ≡ self.entry) × (result.at ≡ 64 + length self.entry.words.now) × (result.next ≡ get_or self.entry.lists.now result.at 0) }
    {
        let at = 64 + self.words.len();
        EachReturn {
            es: self,
            at,
            next: usize::from(self.lists[at]),
        }
    }
}

impl<'a> Iterator for OutOf<'a> {
    type Item = usize;

    ghost next_gives = { λ s r t. NextOut s.es.words.now s.next r t.next × (t.es ≡ s.es) };

    ghost remaining = { λ s. at_most s.next };

    fn next(&mut self) -> Option<usize> {
        if self.next == 0 {
            return None;
        }
        let k = self.next - 1;
        self.next = usize::from(self.es.lists[64 + k]);
        Some(k)
    }
}

impl<'a> Iterator for EachReturn<'a> {
    type Item = usize;

    ghost next_gives = { λ s r t. NextReturn s.es.words.now s.es.lists.now s.at s.next r t.at t.next × (t.es ≡ s.es) };

    ghost remaining = { λ s. at_most (length s.es.lists.now - s.at) };

    fn next(&mut self) -> Option<usize> {
        if self.next == 0 {
            return None;
        }
        let k = self.next - 1;
        let at = self.at + 1;
        let next = usize::from(self.es.lists[at]);
        self.at = at;
        self.next = next;
        Some(k)
    }
}
