// A link record from its fields on: they are read, and then its edges are written as words. And the links that are added, once all records are read (request L3).
#![tactic(auto)]

ghost use Rattle.std.specs.Prelude.{◌≡◌, true, false, List, ℕ, ◌+◌, ◌≤◌, ◌<◌, eqb, length};
ghost use Rattle.definitions.specs.Limits.{most_steps};
ghost use Rattle.definitions.specs.Links.{sequencing_edge, finish_edge};
ghost use Rattle.definitions.specs.declared.Delay.{Delay};
ghost use Rattle.data_edges.specs.Words.{edge, unpack, Fit, DigitsFit};
ghost use Rattle.read_steps.specs.Leaving.{leaving};
ghost use Rattle.read_pair.specs.Parts.{link_from};
ghost use Rattle.read_links.specs.Pushes.{PushedIf, Pushable, LinkPushed, Ready, bound_edge, BoundReads, LinkReads};
ghost use Rattle.read_links.specs.Completes.{EnteredMore, Loose, Completable, Completes};

use data_edges::{BACK_PLACE, COUNTED_PLACE, GAIN_PLACE, LATE_PLACE, LOSS_PLACE, TO_PLACE};
use definitions::Refusal;
use read_fields::has;
use read_pair::Fields;

// The place after a link record that was read, and the count of words after its edges.
#[derive(Clone, Copy)]
pub struct LinkRead {
    pub next: usize,
    pub count: usize,
}

// The word of an edge, from its seven digits.
fn word(from: u64, to: u64, counted: u64, back: u64, gain: u64, loss: u64, late: u64) -> u64
    requires { DigitsFit from to counted back gain loss late }
    ensures { unpack result ≡ edge from to gain loss (eqb counted 1) (eqb back 1) (eqb late 1) }
{
    from + to * TO_PLACE
        + counted * COUNTED_PLACE
        + back * BACK_PLACE
        + gain * GAIN_PLACE
        + loss * LOSS_PLACE
        + late * LATE_PLACE
}

// The words of an after link with its gap, an at-least and an at-most link on (from, to), and of one at most from the finish; `digits` are what `from` adds.
fn sequencing_word(digits: u32, from: u8, to: u8, gap: u16) -> u64
    requires { Fit from to }
    ensures { (d : Delay) (least : ℕ) → digits ≡ leaving d least from → unpack result ≡ sequencing_edge d least from to gap }
{
    u64::from(from) + u64::from(to) * TO_PLACE + u64::from(digits) + u64::from(gap) * GAIN_PLACE
}

fn minimum_word(from: u8, to: u8, least: u16) -> u64
    requires { Fit from to }
    ensures { unpack result ≡ edge from to least 0 false false false }
{
    let (from, to) = (u64::from(from), u64::from(to));
    word(from, to, 0, 0, u64::from(least), 0, 0)
}

fn maximum_word(from: u8, to: u8, most: u16) -> u64
    requires { Fit from to }
    ensures { unpack result ≡ edge to from 0 most false true false }
{
    let (from, to) = (u64::from(from), u64::from(to));
    word(to, from, 0, 1, 0, u64::from(most), 0)
}

fn finish_word(digits: u32, from: u8, to: u8, most: u16) -> u64
    requires { Fit from to }
    ensures { (d : Delay) (least : ℕ) → digits ≡ leaving d least from → unpack result ≡ finish_edge d least from to most }
{
    let (from, to) = (u64::from(from), u64::from(to));
    let d = u64::from(digits);
    let loss = d / GAIN_PLACE + u64::from(most);
    word(to, from, 0, 1, 0, loss, d / COUNTED_PLACE % 2)
}

// A word behind the first count words, where it is there; it says how many there are then.
fn push(words: &mut [u64], count: usize, there: bool, w: u64) -> usize
    requires { count < length words.old }
    ensures { PushedIf there (unpack w) words.old words.new count result }
{
    if there {
        words[count] = w;
        return count + 1;
    }
    count
}

// The edges of a record with the map m for (from, to) and with these fields, one for each bit that stands.
fn push_edges(
    words: &mut [u64],
    count: usize,
    m: u8,
    from: u8,
    to: u8,
    digits: u32,
    fields: Fields,
) -> usize
    requires { Pushable words.old count m from to fields }
    ensures { LinkPushed (link_from m from to fields) digits words.old words.new count result }
{
    let after = sequencing_word(digits, from, to, fields.gap);
    let first = push(words, count, has(m, 0), after);
    let least = minimum_word(from, to, fields.least);
    let second = push(words, first, has(m, 1), least);
    let most = maximum_word(from, to, fields.most);
    let third = push(words, second, has(m, 2), most);
    let latest = finish_word(digits, from, to, fields.latest);
    push(words, third, has(m, 4), latest)
}

// The word of an at-most link, or of an at-least link.
fn bound_word(back: bool, from: u8, to: u8, ticks: u16) -> u64
    requires { Fit from to }
    ensures { unpack result ≡ bound_edge back from to ticks }
{
    if back {
        return maximum_word(from, to, ticks);
    }
    minimum_word(from, to, ticks)
}

// A record of such a link and nothing else.
fn push_bound(
    s: &[u8],
    at: usize,
    back: bool,
    words: &mut [u64],
    count: usize,
    from: u8,
    to: u8,
) -> Result<LinkRead, Refusal>
    requires { Ready s.now at words.old count from to }
    ensures { BoundReads back from to s.now at words.old words.new count result }
{
    let ticks = read_fields::read_number(s, at)?;
    let w = bound_word(back, from, to, ticks.value);
    Ok(LinkRead {
        next: ticks.next,
        count: push(words, count, true, w),
    })
}

// A link record with the map m for (from, to), from its fields on, and its edges, written at count; `digits` are what `from` adds. Most records are an after link, an at-least link or an at-most link alone.
pub fn push_link(
    s: &[u8],
    at: usize,
    m: u8,
    words: &mut [u64],
    count: usize,
    from: u8,
    to: u8,
    digits: u32,
) -> Result<LinkRead, Refusal>
    requires { Ready s.now at words.old count from to }
    ensures { LinkReads m from to digits s.now at words.old words.new count result }
{
    match m {
        1 => {
            let after = sequencing_word(digits, from, to, 0);
            Ok(LinkRead {
                next: at,
                count: push(words, count, true, after),
            })
        }
        2 => push_bound(s, at, false, words, count, from, to),
        4 => push_bound(s, at, true, words, count, from, to),
        _ => {
            let fields = read_pair::read_fields(s, at, m)?;
            Ok(LinkRead {
                next: fields.next,
                count: push_edges(words, count, m, from, to, digits, fields.value),
            })
        }
    }
}

// ---- the links that are added

// The map of the steps that forward links lead into, with those of one record more, which has the map m and leads to `to`: bits 0 and 1 are its forward links.
pub fn with_entered(entered: u64, m: u8, to: u8) -> u64
    requires { to < most_steps }
    ensures { EnteredMore m to entered result }
{
    data_bits::insert_if(entered, usize::from(to), m % 4 != 0)
}

// The map of the steps that follow nothing: those below n, without 0 and those entered.
fn loose_steps(entered: u64, n: usize) -> u64
    requires { n ≤ most_steps }
    ensures { Loose n entered result }
{
    data_sets::minus(data_sets::minus(data_sets::below(n), 1), entered)
}

// The edge of an after link from 0, which adds d, to each step that follows nothing, rising, written at count; it says how many words there are then.
pub fn complete(words: &mut [u64], count: usize, entered: u64, n: usize, d: u32) -> usize
    requires { Completable n words.old count }
    ensures { Completes n entered d words.old words.new count result }
{
    let loose = loose_steps(entered, n);
    let mut next = count;
    for v in data_bits::members(loose) {
        let w = sequencing_word(d, 0, v as u8, 0);
        next = push(words, next, true, w);
    }
    next
}
