// The link records of a sheet, read one by one; the edges of each are written as words, and behind them those of the links that are added (request L3).
#![tactic(auto)]

ghost use Rattle.read_records.specs.Answers.{Fits, LinksReads};

use definitions::Refusal;

// The first count words stand for the edges of the records' links, completed, and the first linked of these for those of the links that were sent.
#[derive(Clone, Copy)]
pub struct LinksRead {
    pub count: usize,
    pub linked: usize,
}

// The r link records, which are the whole of this part of the bytes, of a sheet whose n steps add these digits. The edges of their links, completed, are written from the front of the words on.
pub fn read_links(
    part: &[u8],
    n: usize,
    r: usize,
    digits: &[u32; 64],
    words: &mut [u64],
) -> Result<LinksRead, Refusal>
    requires { Fits n r words.old }
    ensures { LinksReads part.now n r digits.now words.new result }
{
    let mut last = 0;
    let mut next = 0;
    let mut count = 0;
    let mut entered = 0;
    for _ in 0..r {
        let pair = read_pair::read_link(part, next, n, last)?;
        let (m, from, to) = (pair.map, pair.from, pair.to);
        let d = digits[usize::from(from)];
        let link = read_links::push_link(part, next + 3, m, words, count, from, to, d)?;
        last = read_pair::rank(from, to);
        entered = read_links::with_entered(entered, m, to);
        next = link.next;
        count = link.count;
    }
    if next < part.len() {
        return Err(Refusal::Trailing);
    }
    let all = read_links::complete(words, count, entered, n, digits[0]);
    Ok(LinksRead {
        count: all,
        linked: count,
    })
}
