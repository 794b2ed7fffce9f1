// A sheet is read from its bytes: the map of its open steps, its least durations, and its edges as words; or the first fault, refusals 1 to 7 and 26.
#![tactic(auto)]

ghost use Rattle.std.specs.Prelude.{◌≤◌, drop};
ghost use Rattle.definitions.specs.Limits.{most_steps};
ghost use Rattle.definitions.specs.Bytes as Bytes;
ghost use Rattle.read_fields.specs.Parts.{outcome};
ghost use Rattle.read_sheet.specs.Parts.{sheet_counted};
ghost use Rattle.read_sheet.specs.Answers.{Heads, Lent, Reports};

use definitions::{MOST_RECORDS, Refusal};

// How many steps a sheet has, the map of those that are open, other than 0, how many words stand for its edges, how many of these, in front, for the links that were sent, and how many link records it has.
#[derive(Clone, Copy)]
pub struct Report {
    pub n: usize,
    pub unbounded: u64,
    pub count: usize,
    pub linked: usize,
    pub records: usize,
}

// N and R, and the place after them.
#[derive(Clone, Copy)]
struct Head {
    at: usize,
    n: usize,
    r: usize,
}

// R, once N is read.
fn read_counted(s: &[u8], n: usize) -> Result<Head, Refusal>
    requires { n ≤ most_steps }
    ensures { Heads (outcome (sheet_counted n) (drop 1 s.now)) s.now result }
{
    let count = read_fields::read_number(s, 1)?;
    let r = usize::from(count.value);
    if MOST_RECORDS < r {
        return Err(Refusal::LinkCount);
    }
    Ok(Head {
        at: count.next,
        n,
        r,
    })
}

// N and R.
fn read_head(s: &[u8]) -> Result<Head, Refusal>
    ensures { Heads (Bytes.read s.now) s.now result }
{
    if s.is_empty() {
        return Err(Refusal::Truncated);
    }
    let n = usize::from(s[0]);
    match n {
        1..=64 => read_counted(s, n),
        _ => Err(Refusal::OperationCount),
    }
}

// A sheet, its edges written from the front of the words on, and its least durations over zeros; or the first fault. What its steps add is kept while the link records are read.
pub fn read(s: &[u8], words: &mut [u64], leasts: &mut [u16; 64]) -> Result<Report, Refusal>
    requires { Lent s.now words.old leasts.old }
    ensures { Reports (Bytes.read s.now) words.new leasts.new result }
{
    let head = read_head(s)?;
    let mut digits = [0u32; 64];
    let steps = read_steps::read_operations(s, head.at, head.n, &mut digits, leasts)?;
    let links = read_records::read_links(&s[steps.next..], head.n, head.r, &digits, words)?;
    Ok(Report {
        n: head.n,
        unbounded: steps.unbounded,
        count: links.count,
        linked: links.linked,
        records: head.r,
    })
}
