// What the records of a sheet are made of, at a place of the bytes: a map whose bits say which fields are there, and numbers of two bytes.
#![tactic(auto)]

ghost use Rattle.std.specs.Prelude.{◌≡◌, ◌+◌, ◌≤◌, ◌<◌, leb, length};
ghost use Rattle.std.proofs.Common.{Fits};
ghost use Rattle.std.specs.Int.{w64};
ghost use Rattle.definitions.specs.Basics.{test_bit};
ghost use Rattle.definitions.specs.Limits.{most_records};
ghost use Rattle.read_fields.specs.Counts.{link_count};
ghost use Rattle.read_fields.specs.Answers.{NumberReads, number_at, field_at, field_end, FieldEnds};

use definitions::Refusal;

// An item that was read at a place of the bytes, with the place after it.
#[derive(Clone, Copy)]
pub struct Item<T> {
    pub value: T,
    pub next: usize,
}

// The number of two bytes that stands at a place, the low one first.
fn number_at(s: &[u8], at: usize) -> u16
    requires { at + 2 ≤ length s.now }
    ensures { result ≡ number_at s.now at }
{
    let low = s[at];
    let high = s[at + 1];
    u16::from(low) + u16::from(high) * 256
}

// A number of two bytes.
pub fn read_number(s: &[u8], at: usize) -> Result<Item<u16>, Refusal>
    requires { at ≤ length s.now + 1 }
    ensures { NumberReads s.now at result }
{
    let end = at + 2;
    if s.len() < end {
        return Err(Refusal::Truncated);
    }
    Ok(Item {
        value: number_at(s, at),
        next: end,
    })
}

// Whether bit k of a record's map stands.
pub fn has(m: u8, k: usize) -> bool
    requires { k < 8 }
    ensures { result ≡ test_bit m k }
{
    (m >> k) % 2 == 1
}

// A field of two bytes, if it is there, from a place on: where it ends, and its number. One that is not there takes no bytes and counts as 0.
pub fn field_end(at: usize, there: bool) -> usize
    requires { Fits w64 (at + 2) }
    ensures { FieldEnds at there result }
{
    if there { at + 2 } else { at }
}

pub fn field(s: &[u8], at: usize, there: bool) -> u16
    requires { field_end at there ≤ length s.now }
    ensures { result ≡ field_at s.now at there }
{
    if there { number_at(s, at) } else { 0 }
}

// Whether a sheet has at most so many link records: few words are then enough for its edges. Bytes that end before R have none.
pub fn is_brief(s: &[u8], most: u16) -> bool
    requires { most < most_records }
    ensures { result ≡ leb (link_count s.now) most }
{
    match read_number(s, 1) {
        Ok(count) => count.value <= most,
        Err(_) => true,
    }
}
