// The library over bytes: the few records of an impossible sheet that clash (request L14).
#![tactic(auto)]

ghost use Rattle.std.specs.Prelude.{◌≡◌, eqb};
ghost use Rattle.definitions.specs.Answers.{count_of, edges_of};
ghost use Rattle.definitions.specs.Bytes.{Records};
ghost use Rattle.definitions.specs.Clashes.{few};
ghost use Rattle.definitions.specs.Numbers.{number, status_of};
ghost use Rattle.data_edges.specs.Words.{graph};
ghost use Rattle.judge_possible.specs.Possible.{judge_possible};
ghost use Rattle.clash_filter.specs.Sheets.{Completed, Recorded};
ghost use Rattle.clash_sheet.specs.Reports.{Answered, EdgeWords, FewReturned, Handed, Held, Holding, RecordWords};

use data_lists::Edges;
use definitions::{MOST_EDGES, MOST_RECORDS, Refusal};
use judge_possible::judge_possible;

// Adjacency lists of all edges that there may be (see the crate data_lists).
const MOST_LISTED: usize = 64 + 2 * MOST_EDGES + 1;

// These numbers, over the front of those that are lent, where there is room. Refuses 14.
fn hand_out(numbers: &[u32], list: &mut [u32]) -> Result<usize, Refusal>
    ensures { Handed numbers.now list.old result list.new }
{
    let count = numbers.len();
    if list.len() < count {
        return Err(Refusal::TooShort);
    }
    list[..count].copy_from_slice(numbers);
    Ok(count)
}

// The report of the records that these words are of, at the front of the list. Refuses 14.
fn report(es: &[u64], records: usize, n: usize, list: &mut [u32]) -> Result<usize, Refusal>
    requires { RecordWords n records es.now }
    ensures { (q : Records) → Recorded q n records es.now → Handed (few q) list.old result list.new }
{
    let mut numbers = [0u32; MOST_RECORDS];
    let at = clash_filter::clash(es, records, n, &mut numbers);
    hand_out(&numbers[at..], list)
}

// Refusals 8, 10 and 11 of the sheet of n steps that has these edges.
fn judge(es: &[u64], n: usize) -> Result<(), Refusal>
    requires { EdgeWords n es.now }
    ensures { (q : Records) → Completed q n (graph es.now) → status_of result tt ≡ judge_possible (count_of q) (edges_of q) }
{
    let mut lists = [0u16; MOST_LISTED];
    data_lists::list(es, &mut lists);
    let lists = &lists;
    judge_possible(Edges { words: es, lists }, n)
}

// Whether a refusal is 8.
fn is_circle(k: Refusal) -> bool
    ensures { result ≡ eqb (number k) 8 }
{
    matches!(k, Refusal::ForwardCycle)
}

// What is answered of a sheet that was read: the first `count` words are of its edges, and the first `linked` of these of its records. Refuses 8, 31 and 14.
fn clashes_of(
    words: &[u64],
    count: usize,
    linked: usize,
    records: usize,
    n: usize,
    list: &mut [u32],
) -> Result<usize, Refusal>
    requires { Held words.now count linked records n }
    ensures { (q : Records) → Holding q words.now count linked records n → Answered q list.old result list.new }
{
    match judge(&words[..count], n) {
        Ok(()) => Err(Refusal::NotImpossible),
        Err(k) => {
            if is_circle(k) {
                return Err(k);
            }
            report(&words[..linked], records, n, list)
        }
    }
}

// The few records that clash of a sheet refused as 10 or 11, whatever its bytes: from the last record to the first each one is dropped whose loss leaves it refused so. The numbers of those that stay, counted from 0 and
// rising, stand at the front of the list then, and their count is answered; those past them stay as lent.
// Refuses what reading refuses, 1 to 7 and 26, then 8, then 31 where the sheet is not refused as 10 or 11, then 14 where the list is shorter than the report. Nothing changes on a refusal.
pub fn clashes(s: &[u8], list: &mut [u32]) -> Result<usize, Refusal>
    ensures { FewReturned s.now list.old result list.new }
{
    let mut words = [0u64; MOST_EDGES];
    let mut leasts = [0u16; 64];
    let report = read_sheet::read(s, &mut words, &mut leasts)?;
    clashes_of(
        &words,
        report.count,
        report.linked,
        report.records,
        report.n,
        list,
    )
}
