// Parts of a sheet from numbers of 16 bits (request L4): what callers of the sheet writer that cannot hand over its types give in the place of them (specs/Decoding.antt).
#![tactic(auto)]

ghost use Rattle.std.specs.Prelude.{◌≡◌, ◌+◌, ◌*◌, ◌≤◌, ◌<◌, length, take};
ghost use Rattle.definitions.specs.Basics.{test_bit};
ghost use Rattle.definitions.specs.Bytes.{bound_from};
ghost use Rattle.definitions.specs.Limits.{most_records, most_steps};
ghost use Rattle.write_numbers.specs.Decoding.{end_from, record_at, record_from, records_in, step_at, step_from, steps_in};

use definitions::{Delay, Link, MOST_RECORDS, Operation};
use read_fields::has;

// A record with no link.
const BLANK_LINK: Link = Link {
    from: 0,
    to: 0,
    sequencing: false,
    minimum: None,
    maximum: None,
    gap: None,
    latest: None,
};

// The step of a map and its ticks.
fn step_from(map: u16, ticks: u16) -> Operation
    ensures { result ≡ step_from map ticks }
{
    match map {
        0 => Operation {
            delay: Delay::Fixed(0),
            least: None,
        },
        1 => Operation {
            delay: Delay::Open,
            least: None,
        },
        2 => Operation {
            delay: Delay::Fixed(ticks),
            least: None,
        },
        5 => Operation {
            delay: Delay::Open,
            least: Some(ticks),
        },
        _ => Operation {
            delay: Delay::Fixed(0),
            least: Some(0),
        },
    }
}

// A field that is there where its bit stands.
fn bound_from(there: bool, ticks: u16) -> Option<u16>
    ensures { result ≡ bound_from there ticks }
{
    if there { Some(ticks) } else { None }
}

// The field of a bit of the map.
fn field_from(map: u8, bit: usize, ticks: u16) -> Option<u16>
    requires { bit < 8 }
    ensures { result ≡ bound_from (test_bit map bit) ticks }
{
    bound_from(has(map, bit), ticks)
}

// A number that stands for a step: one that does not fit a byte is 255.
fn end_from(i: u16) -> u8
    ensures { result ≡ end_from i }
{
    u8::try_from(i).unwrap_or(255)
}

// The link record of a map, a pair and its fields.
fn record_from(map: u16, i: u16, j: u16, least: u16, most: u16, gap: u16, latest: u16) -> Link
    ensures { result ≡ record_from map i j least most gap latest }
{
    if 31 < map {
        return BLANK_LINK;
    }
    let m = map as u8;
    Link {
        from: end_from(i),
        to: end_from(j),
        sequencing: has(m, 0),
        minimum: field_from(m, 1, least),
        maximum: field_from(m, 2, most),
        gap: field_from(m, 3, gap),
        latest: field_from(m, 4, latest),
    }
}

// Step k.
fn step_at(numbers: &[u16], k: usize) -> Operation
    requires { 2 * k + 2 ≤ length numbers.now }
    ensures { result ≡ step_at numbers.now k }
{
    let at = 2 * k;
    step_from(numbers[at], numbers[at + 1])
}

// Link record k.
fn record_at(numbers: &[u16], k: usize) -> Link
    requires { 7 * k + 7 ≤ length numbers.now }
    ensures { result ≡ record_at numbers.now k }
{
    let at = 7 * k;
    record_from(
        numbers[at],
        numbers[at + 1],
        numbers[at + 2],
        numbers[at + 3],
        numbers[at + 4],
        numbers[at + 5],
        numbers[at + 6],
    )
}

// The first `count` steps.
pub fn steps_from(numbers: &[u16], count: usize) -> [Operation; 64]
    requires { (count ≤ most_steps) × (2 * count ≤ length numbers.now) }
    ensures { take count result ≡ take count (steps_in numbers.now) }
{
    let blank = Operation {
        delay: Delay::Open,
        least: None,
    };
    let mut steps = [blank; 64];
    for k in 0..count {
        steps[k] = step_at(numbers, k);
    }
    steps
}

// The first `count` link records.
pub fn records_from(numbers: &[u16], count: usize) -> [Link; 512]
    requires { (count ≤ most_records) × (7 * count ≤ length numbers.now) }
    ensures { take count result ≡ take count (records_in numbers.now) }
{
    let mut links = [BLANK_LINK; MOST_RECORDS];
    for k in 0..count {
        links[k] = record_at(numbers, k);
    }
    links
}
