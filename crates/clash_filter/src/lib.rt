// Request L14, "the few records that clash": from the last record to the first, each one is dropped whose loss leaves the sheet impossible. Words stand for edges, as in the crate data_edges.
#![tactic(auto)]

ghost use Rattle.std.specs.Prelude.{◌≡◌};
ghost use Rattle.definitions.specs.Bytes.{Records};
ghost use Rattle.definitions.specs.Clashes.{impossible};
ghost use Rattle.data_edges.specs.Words.{graph};
ghost use Rattle.clash_filter.specs.Sheets.{Completed, Judgeable, Triable, Tried, Recorded, Filterable, Workable, Reported};

use clash_parts::{clear, complete_part, put, record_start};
use data_lists::Edges;
use definitions::{MOST_ADDED, MOST_EDGES, MOST_RECORDS};

// The words of the edges of all records that there may be, and numbers for the adjacency lists of all edges (see the crate data_lists).
const MOST_SENT: usize = MOST_EDGES - MOST_ADDED;

const MOST_LISTED: usize = 64 + 2 * MOST_EDGES + 1;

// Whether the sheet of n steps is impossible that has these edges, with numbers lent for their adjacency lists.
fn impossible_edges(es: &[u64], n: usize, lists: &mut [u16]) -> bool
    requires { Judgeable n es.now lists.old }
    ensures { (q : Records) → Completed q n (graph es.now) → result ≡ impossible q }
{
    clear(lists);
    data_lists::list(es, lists);
    judge_possible::is_impossible(Edges { words: es, lists }, n)
}

// Whether the part is impossible that has the records of the first count words, and of these others. Its words are put together behind the first ones, which stay, with those of the links that are added to it.
fn impossible_with(
    part: &mut [u64],
    count: usize,
    others: &[u64],
    n: usize,
    lists: &mut [u16],
) -> bool
    requires { Triable n part.old count others.now lists.old }
    ensures { Tried n part.old part.new count others.now result }
{
    put(part, count, others);
    let all = complete_part(part, count + others.len(), n);
    impossible_edges(&part[..all], n, lists)
}

// From the last record to the first: `part`, which begins with the words of all of them, `kept`, and `lists` are to work on. What stays is noted from the back of the numbers on; it says where the first of them is.
fn filter(
    es: &[u64],
    records: usize,
    n: usize,
    part: &mut [u64],
    kept: &mut [u64],
    lists: &mut [u16],
    numbers: &mut [u32; 512],
) -> usize
    requires { Filterable n records es.now numbers.old × Workable es.now part.old kept.old lists.old }
    ensures { (q : Records) → Recorded q n records es.now → Reported q numbers.new result }
{
    let mut front = es.len();
    let mut back = MOST_SENT;
    let mut at = MOST_RECORDS;
    for k in (0..records).rev() {
        let first = record_start(es, front);
        if !impossible_with(part, first, &kept[back..], n, lists) {
            back -= front - first;
            put(kept, back, &es[first..front]);
            at -= 1;
            numbers[at] = k as u32;
        }
        front = first;
    }
    at
}

// The few records that clash, of a sheet of n steps: es are the words of the edges of its records, in their order. Their numbers, counted from 0, are put to the end of those lent, rising; it says where the first of them is.
pub fn clash(es: &[u64], records: usize, n: usize, numbers: &mut [u32; 512]) -> usize
    requires { Filterable n records es.now numbers.old }
    ensures { (q : Records) → Recorded q n records es.now → Reported q numbers.new result }
{
    let mut part = [0u64; MOST_EDGES];
    let mut kept = [0u64; MOST_SENT];
    let mut lists = [0u16; MOST_LISTED];
    put(&mut part, 0, es);
    filter(es, records, n, &mut part, &mut kept, &mut lists, numbers)
}
