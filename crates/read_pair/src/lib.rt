// A link record of a sheet: its map and its pair, and then the fields that its map says are there.
#![tactic(auto)]

ghost use Rattle.std.specs.Prelude.{◌≡◌, ◌+◌, ◌≤◌, length, drop};
ghost use Rattle.definitions.specs.Bytes.{Previous, endpoints, link};
ghost use Rattle.definitions.specs.Numbers.{number};
ghost use Rattle.read_pair.specs.Parts.{link_pair};
ghost use Rattle.read_pair.specs.Answers.{Ranks, Ranked, PairReads, FieldsReads, allowed, upper_allowed, map_refusal};

use definitions::Refusal;
use read_fields::{Item, field, field_end, has};

// The map and the pair of a link record.
#[derive(Clone, Copy)]
pub struct Pair {
    pub map: u8,
    pub from: u8,
    pub to: u8,
}

// The ticks of the fields: at least, at most, the gap, at most from the finish. Those of a field that is not there are 0.
#[derive(Clone, Copy)]
pub struct Fields {
    pub least: u16,
    pub most: u16,
    pub gap: u16,
    pub latest: u16,
}

// Whether both ends of a pair are steps, and not one step.
pub fn endpoints_allowed(n: usize, i: u8, j: u8) -> bool
    ensures { result ≡ endpoints n i j }
{
    usize::from(i.max(j)) < n && i != j
}

// A pair as one number: pairs rise as their numbers do.
pub fn rank(i: u8, j: u8) -> usize
    ensures { Ranks i j result }
{
    usize::from(i) * 256 + usize::from(j)
}

// The pair of a link record with the map m, where the pair before it has the number `last`.
fn read_pair(s: &[u8], at: usize, n: usize, last: usize, m: u8) -> Result<Pair, Refusal>
    requires { at ≤ length s.now }
    ensures { (previous : Previous) → Ranked previous last → PairReads s.now (at + 2) n (link_pair n previous m (drop at s.now)) result }
{
    let second = at + 1;
    if s.len() <= second {
        return Err(Refusal::Truncated);
    }
    let i = s[at];
    let j = s[second];
    if !endpoints_allowed(n, i, j) {
        return Err(Refusal::BadEndpoint);
    }
    if rank(i, j) <= last {
        return Err(Refusal::BadOrder);
    }
    Ok(Pair {
        map: m,
        from: i,
        to: j,
    })
}

// Whether a map with bit 3 or bit 4 is allowed: with bit 0.
fn upper_map_allowed(m: u8) -> bool
    ensures { result ≡ upper_allowed m }
{
    matches!(m, 9 | 11 | 13 | 15 | 17 | 19 | 21 | 23 | 25 | 27 | 29 | 31)
}

// Whether a map is allowed. Most have none but bits 0 to 2.
fn map_allowed(m: u8) -> bool
    ensures { result ≡ allowed m }
{
    match m {
        1..=7 => true,
        _ => upper_map_allowed(m),
    }
}

// The refusal of a map that is not allowed: 26 is bit 4 without bit 0, where no bit 3 stands.
fn map_fault(m: u8) -> Refusal
    ensures { number result ≡ map_refusal m }
{
    match m {
        16 | 18 | 20 | 22 => Refusal::Unsequenced,
        _ => Refusal::BadMap,
    }
}

// A link record up to its fields, where the pair before it has the number `last`: its map is judged first.
pub fn read_link(s: &[u8], at: usize, n: usize, last: usize) -> Result<Pair, Refusal>
    ensures { (previous : Previous) → Ranked previous last → PairReads s.now (at + 3) n (link n previous (drop at s.now)) result }
{
    if s.len() <= at {
        return Err(Refusal::Truncated);
    }
    let m = s[at];
    if !map_allowed(m) {
        return Err(map_fault(m));
    }
    read_pair(s, at + 1, n, last, m)
}

// The fields of a link record with the map m: either all are there to their ends, or the bytes end too early.
pub fn read_fields(s: &[u8], at: usize, m: u8) -> Result<Item<Fields>, Refusal>
    requires { at ≤ length s.now }
    ensures { FieldsReads s.now at m result }
{
    let has_least = has(m, 1);
    let has_most = has(m, 2);
    let has_gap = has(m, 3);
    let has_latest = has(m, 4);
    let most_at = field_end(at, has_least);
    let gap_at = field_end(most_at, has_most);
    let latest_at = field_end(gap_at, has_gap);
    let end = field_end(latest_at, has_latest);
    if s.len() < end {
        return Err(Refusal::Truncated);
    }
    let fields = Fields {
        least: field(s, at, has_least),
        most: field(s, most_at, has_most),
        gap: field(s, gap_at, has_gap),
        latest: field(s, latest_at, has_latest),
    };
    Ok(Item {
        value: fields,
        next: end,
    })
}
