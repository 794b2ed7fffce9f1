// The records of a sheet as bytes (request L4): the map of a step and of a link record, how many bytes each has, and its bytes put into a lent buffer.
#![tactic(auto)]

ghost use Rattle.std.specs.Prelude.{◌≡◌, [], ◌∷◌, ◌+◌, ◌≤◌, length};
ghost use Rattle.definitions.specs.Limits.{longest_record};
ghost use Rattle.definitions.specs.Writer.{bit_of, duration_of, field_of, link_bytes, link_map_of, open_bit, operation_bytes, operation_map_of, two_bytes_of};
ghost use Rattle.data_buffers.specs.Texts.{Put};
ghost use Rattle.write_fields.specs.Sizes.{BitFor, Sized, largest_step, link_front};

use data_buffers::put_byte;
use definitions::{Delay, Link, Operation};

// The bit of a field that is there.
fn bound_bit(b: Option<u16>, bit: u8) -> u8
    ensures { BitFor bit (bit_of b bit) result }
{
    match b {
        None => 0,
        Some(_) => bit,
    }
}

// The field of a fixed duration: 0 is left out.
fn duration(d: Delay) -> Option<u16>
    ensures { result ≡ duration_of d }
{
    match d {
        Delay::Open => None,
        Delay::Fixed(0) => None,
        Delay::Fixed(x) => Some(x),
    }
}

// The bit of an open step.
fn unbounded_bit(d: Delay) -> u8
    ensures { BitFor 1 (open_bit d) result }
{
    u8::from(matches!(d, Delay::Open))
}

// The map of a step.
pub fn step_map(o: Operation) -> u8
    ensures { result ≡ operation_map_of o }
{
    unbounded_bit(o.delay) + bound_bit(duration(o.delay), 2) + bound_bit(o.least, 4)
}

// The map of a link record.
pub fn link_map(l: Link) -> u8
    ensures { result ≡ link_map_of l }
{
    u8::from(l.sequencing)
        + bound_bit(l.minimum, 2)
        + bound_bit(l.maximum, 4)
        + bound_bit(l.gap, 8)
        + bound_bit(l.latest, 16)
}

// How many bytes a field has.
fn field_size(b: Option<u16>) -> usize
    ensures { Sized 2 (field_of b) result }
{
    match b {
        None => 0,
        Some(_) => 2,
    }
}

// How many bytes a step record has: a map, and at most two fields.
pub fn step_size(o: Operation) -> usize
    ensures { Sized largest_step (operation_bytes o) result }
{
    1 + field_size(duration(o.delay)) + field_size(o.least)
}

// How many bytes a link record has.
pub fn link_size(l: Link) -> usize
    ensures { Sized longest_record (link_bytes l) result }
{
    3 + field_size(l.minimum) + field_size(l.maximum) + field_size(l.gap) + field_size(l.latest)
}

// Two bytes.
fn put_two(first: u8, second: u8, out: &mut [u8], at: usize) -> usize
    requires { at + 2 ≤ length out.old }
    ensures { Put (first ∷ second ∷ []) at result out.old out.new }
{
    let p = put_byte(first, out, at);
    put_byte(second, out, p)
}

// A number of two bytes, the low one first.
pub fn put_number(x: u16, out: &mut [u8], at: usize) -> usize
    requires { at + 2 ≤ length out.old }
    ensures { Put (two_bytes_of x) at result out.old out.new }
{
    let [low, high] = x.to_le_bytes();
    put_two(low, high, out, at)
}

// A field, if it is there.
fn put_field(b: Option<u16>, out: &mut [u8], at: usize) -> usize
    requires { at + length (field_of b) ≤ length out.old }
    ensures { Put (field_of b) at result out.old out.new }
{
    match b {
        None => at,
        Some(x) => put_number(x, out, at),
    }
}

// A step record.
pub fn put_step(o: Operation, out: &mut [u8], at: usize) -> usize
    requires { at + length (operation_bytes o) ≤ length out.old }
    ensures { Put (operation_bytes o) at result out.old out.new }
{
    let p = put_byte(step_map(o), out, at);
    let q = put_field(duration(o.delay), out, p);
    put_field(o.least, out, q)
}

// The map and the pair of a link record.
fn put_pair(l: Link, out: &mut [u8], at: usize) -> usize
    requires { at + 3 ≤ length out.old }
    ensures { Put (link_front l) at result out.old out.new }
{
    let p = put_byte(link_map(l), out, at);
    put_two(l.from, l.to, out, p)
}

// A link record.
pub fn put_link(l: Link, out: &mut [u8], at: usize) -> usize
    requires { at + length (link_bytes l) ≤ length out.old }
    ensures { Put (link_bytes l) at result out.old out.new }
{
    let p = put_pair(l, out, at);
    let q = put_field(l.minimum, out, p);
    let s = put_field(l.maximum, out, q);
    let t = put_field(l.gap, out, s);
    put_field(l.latest, out, t)
}
