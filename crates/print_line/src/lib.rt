// The lines of what the programs print, each formatted into a lent buffer. A writer puts its text at a position and returns the next one.
#![tactic(auto)]

ghost use Rattle.std.specs.Prelude.{[], ◌∷◌, ◌+◌, ◌<◌, ◌≤◌, length};
ghost use Rattle.definitions.specs.Output.{decimal, field, newline};
ghost use Rattle.data_buffers.specs.Texts.{Put};
ghost use Rattle.print_line.specs.Texts.{Printed, fields, heading, line, refusal_room, refusal_text};

use data_buffers::put_byte;

// The bytes of a word.
fn put_word(word: &[u8], out: &mut [u8], at: usize) -> usize
    requires { at + length word.now ≤ length out.old }
    ensures { Put word.now at result out.old out.new }
{
    let mut p = at;
    for &b in word {
        p = put_byte(b, out, p);
    }
    p
}

// One decimal digit.
fn put_digit(d: u32, out: &mut [u8], at: usize) -> usize
    requires { (d < 10) × (at < length out.old) }
    ensures { Put ((48 + d) ∷ []) at result out.old out.new }
{
    put_byte((48 + d) as u8, out, at)
}

// A number: the digits of its tenth part, then its last digit.
fn put_number(x: u32, out: &mut [u8], at: usize) -> usize
    requires { at + length (decimal x) ≤ length out.old }
    ensures { Put (decimal x) at result out.old out.new }
{
    if x < 10 {
        return put_digit(x, out, at);
    }
    let p = put_number(x / 10, out, at);
    put_digit(x % 10, out, p)
}

// A space, then a number.
fn put_field(x: u32, out: &mut [u8], at: usize) -> usize
    requires { at + length (field x) ≤ length out.old }
    ensures { Put (field x) at result out.old out.new }
{
    let p = put_byte(32, out, at);
    put_number(x, out, p)
}

// The end of a line.
fn put_newline(out: &mut [u8], at: usize) -> usize
    requires { at < length out.old }
    ensures { Put newline at result out.old out.new }
{
    put_byte(10, out, at)
}

// The fields of numbers, one after the other.
fn put_fields(numbers: &[u32], out: &mut [u8], at: usize) -> usize
    requires { at + length (fields numbers.now) ≤ length out.old }
    ensures { Put (fields numbers.now) at result out.old out.new }
{
    let mut p = at;
    for &x in numbers {
        p = put_field(x, out, p);
    }
    p
}

// A line of a word and numbers.
pub fn put_line(word: &[u8], numbers: &[u32], out: &mut [u8], at: usize) -> usize
    requires { at + length (line word.now numbers.now) ≤ length out.old }
    ensures { Put (line word.now numbers.now) at result out.old out.new }
{
    let p = put_word(word, out, at);
    let q = put_fields(numbers, out, p);
    put_newline(out, q)
}

// A line of a word and one number.
pub fn put_heading(word: &[u8], x: u32, out: &mut [u8], at: usize) -> usize
    requires { at + length (heading word.now x) ≤ length out.old }
    ensures { Put (heading word.now x) at result out.old out.new }
{
    let number = [x];
    put_line(word, &number, out, at)
}

// What is printed of a sheet that is refused, by the refusal's number. Returns how many bytes there are.
pub fn print_refusal(number: u32, out: &mut [u8]) -> usize
    requires { refusal_room ≤ length out.old }
    ensures { Printed (refusal_text number) result out.old out.new }
{
    put_heading(b"refused", number, out, 0)
}
