// The step records of a sheet, read one by one; what each step adds to the words of the after links that leave it is written, and the least durations, and the open steps are gathered in a map.
#![tactic(auto)]

ghost use Rattle.std.specs.Prelude.{◌≡◌, List, ℕ, ◌*◌, ◌≤◌, ◌<◌, eqb, length, None, Some};
ghost use Rattle.definitions.specs.Bytes.{operation};
ghost use Rattle.definitions.specs.Limits.{most_steps};
ghost use Rattle.definitions.specs.declared.Delay.TheVariants.{Fixed, Open};
ghost use Rattle.read_steps.specs.Leaving.{added};
ghost use Rattle.read_steps.specs.Parts.{fixed, slow, operation_mapped};
ghost use Rattle.data_edges.specs.Words.{gain_place};
ghost use Rattle.read_steps.specs.Answers.{StepReads, SlowReady, MappedReady, RowReady, OperationsReads};

use data_edges::{COUNTED_PLACE, GAIN_PLACE};
use definitions::{Delay, Operation, Refusal};
use read_fields::Item;

// Where the step records end, and the map of the open steps other than 0.
#[derive(Clone, Copy)]
pub struct Steps {
    pub next: usize,
    pub unbounded: u64,
}

// What an open step other than 0 adds: the mark counted, and its least as gain. A fixed step adds its ticks as gain.
const MARK: u32 = COUNTED_PLACE as u32;

// Ticks as gain.
fn gain_digits(x: u16) -> u32
    ensures { result ≡ x * gain_place }
{
    u32::from(x) * (GAIN_PLACE as u32)
}

// What step i adds.
fn added_by(step: Operation, i: usize) -> u32
    ensures { result ≡ added i step }
{
    match step.delay {
        Delay::Fixed(ticks) => gain_digits(ticks),
        Delay::Open => {
            if i < 1 {
                return 0;
            }
            match step.least {
                None => MARK,
                Some(x) => MARK + gain_digits(x),
            }
        }
    }
}

// A step that lasts a fixed number of ticks, and an open one without a least duration and with one.
fn timed(ticks: u16) -> Operation
    ensures { result ≡ record { delay = Fixed ticks; least = None } }
{
    Operation {
        delay: Delay::Fixed(ticks),
        least: None,
    }
}

fn untimed() -> Operation
    ensures { result ≡ record { delay = Open; least = None } }
{
    Operation {
        delay: Delay::Open,
        least: None,
    }
}

fn lasting(least: u16) -> Operation
    ensures { result ≡ record { delay = Open; least = Some least } }
{
    Operation {
        delay: Delay::Open,
        least: Some(least),
    }
}

// Of a step i at a place of the bytes, what it adds to the words of the after links that leave it: of one that lasts a fixed number of ticks, by its duration.
fn fixed_step(s: &[u8], at: usize, i: usize) -> Result<Item<u32>, Refusal>
    requires { at ≤ length s.now }
    ensures { (leasts : List ℕ) → StepReads fixed s.now at i leasts leasts result }
{
    let ticks = read_fields::read_number(s, at)?;
    Ok(Item {
        value: added_by(timed(ticks.value), i),
        next: ticks.next,
    })
}

// Of an open step i with a least duration.
fn slow_step(s: &[u8], at: usize, i: usize, leasts: &mut [u16; 64]) -> Result<Item<u32>, Refusal>
    requires { SlowReady s.now at i }
    ensures { StepReads slow s.now at i leasts.old leasts.new result }
{
    let least = read_fields::read_number(s, at)?;
    leasts[i] = least.value;
    Ok(Item {
        value: added_by(lasting(least.value), i),
        next: least.next,
    })
}

// The record of step i with the map m, from the place after its map on. Step 0 has the map 1.
fn read_mapped(
    m: u8,
    s: &[u8],
    at: usize,
    i: usize,
    leasts: &mut [u16; 64],
) -> Result<Item<u32>, Refusal>
    requires { MappedReady s.now at i }
    ensures { StepReads (operation_mapped (eqb i 0) m) s.now at i leasts.old leasts.new result }
{
    if i == 0 {
        if m != 1 {
            return Err(Refusal::BadMap);
        }
        return Ok(Item {
            value: added_by(untimed(), 0),
            next: at,
        });
    }
    match m {
        0 => Ok(Item {
            value: added_by(timed(0), i),
            next: at,
        }),
        1 => Ok(Item {
            value: added_by(untimed(), i),
            next: at,
        }),
        2 => fixed_step(s, at, i),
        5 => slow_step(s, at, i, leasts),
        _ => Err(Refusal::BadMap),
    }
}

// The record of step i.
fn read_step(s: &[u8], at: usize, i: usize, leasts: &mut [u16; 64]) -> Result<Item<u32>, Refusal>
    requires { i < most_steps }
    ensures { StepReads (operation (eqb i 0)) s.now at i leasts.old leasts.new result }
{
    if s.len() <= at {
        return Err(Refusal::Truncated);
    }
    read_mapped(s[at], s, at + 1, i, leasts)
}

// The n step records from a place on, what each of these steps adds to the words of the after links that leave it, and their leasts. Those that add the mark, which are the open steps other than 0, are put
// into the map. The leasts are lent as zeros and one is written where its record is read, and not taken from the digits afterwards: steps that have none pay nothing.
pub fn read_operations(
    s: &[u8],
    at: usize,
    n: usize,
    digits: &mut [u32; 64],
    leasts: &mut [u16; 64],
) -> Result<Steps, Refusal>
    requires { RowReady s.now at n digits.old leasts.old }
    ensures { OperationsReads s.now at n digits.new leasts.new result }
{
    let mut unbounded = 0;
    let mut next = at;
    for i in 0..n {
        let step = read_step(s, next, i, leasts)?;
        digits[i] = step.value;
        unbounded = data_bits::insert_if(unbounded, i, step.value / MARK % 2 == 1);
        next = step.next;
    }
    Ok(Steps { next, unbounded })
}
