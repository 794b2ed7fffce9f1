// What the programs read and write, from a reader and to a writer that are lent, which are standard input and output.
#![tactic(auto)]

ghost use Rattle.std.specs.Prelude.{◌≡◌, ℕ, List, ◌∷◌, ◌<◌, ◌≤◌, ◌^◌, decimal, length, take, IfOk, IfSome, OnErr, OnOk};
ghost use Rattle.print_console.specs.Texts.{code_text, TakenToFront, FitsIn, Formats};
ghost use Rattle.std.specs.Io.KnownBytes.{Appends, Consumes, IsAtEnd};

use std::io;
use std::io::{Read, Write};

// Reads until the lent bytes are full or the input ends. Returns how many there are. Where a read fails, what was taken before stands at the front of the lent bytes.
pub fn read_full<R: Read>(input: &mut R, buffer: &mut [u8]) -> io::Result<usize>
    ensures within { IfOk result (λ n. n ≤ length buffer.new) }
    ensures bytes { IfOk result (λ n. Consumes (R.remaining input.old) (R.remaining input.new) (take n buffer.new)) }
    ensures end { IfOk result (λ n. n < length buffer.new → IsAtEnd (R.remaining input.new)) }
    ensures err { OnErr result (TakenToFront (R.remaining input.old) (R.remaining input.new) buffer.new) }
{
    let mut done = 0;
    while done < buffer.len() {
        let n = input.read(&mut buffer[done..])?;
        if n == 0 {
            return Ok(done);
        }
        done += n;
    }
    Ok(done)
}

// More bytes than the longest sheet has, so those of an input that are read decide what is printed of it: `front_decides` (crates/demands/proofs/Demands.antt).
pub const INPUT_ROOM: usize = 8192;

// Prints the text that `text` formats of all that an input holds, in a buffer of ROOM bytes. It is `form` of the input, for each form that a front decides and that `text` gives.
pub fn print_of<R: Read, W: Write, F: Fn(&[u8], &mut [u8]) -> usize, const ROOM: usize>(
    input: &mut R,
    out: &mut W,
    text: F,
) -> io::Result<()>
    requires small { ROOM < 2 ^ 63 }
    requires fits { FitsIn F.Fn text ROOM }
    ensures { (form : List ℕ → List ℕ) → ((s : List ℕ) → form (take INPUT_ROOM s) ≡ form s) → Formats F.Fn text ROOM form → OnOk result (IfSome (R.remaining input.old) (λ s. Appends (W.contents out.old) (W.contents out.new) (form s))) }
{
    let mut bytes = [0u8; INPUT_ROOM];
    let n = read_full(input, &mut bytes)?;
    let mut sheet = [0u8; ROOM];
    let size = text(&bytes[..n], &mut sheet);
    write(out, &sheet[..size])
}

// The bytes of a word.
pub fn write<W: Write>(out: &mut W, word: &[u8]) -> io::Result<()>
    ensures { OnOk result (Appends (W.contents out.old) (W.contents out.new) word.now) }
{
    out.write_all(word)
}

// A space, then a number.
pub fn write_number<W: Write>(out: &mut W, x: u64) -> io::Result<()>
    ensures { OnOk result (Appends (W.contents out.old) (W.contents out.new) (32 ∷ decimal x)) }
{
    write!(out, " {x}")
}

// A space, then a verdict that is given by its number (crate data_numbers): that number below 256, else `refused` and the refusal's.
pub fn write_code<W: Write>(out: &mut W, code: u32) -> io::Result<()>
    ensures { OnOk result (Appends (W.contents out.old) (W.contents out.new) (code_text code)) }
{
    if code < 256 {
        write_number(out, u64::from(code))
    } else {
        write(out, b" refused")?;
        write_number(out, u64::from(code - 256))
    }
}
