// Reads one sheet from standard input, allows waits, and prints the price of its control box or its refusal (request L5).
#![tactic(auto)]

ghost use Rattle.std.specs.Prelude.{IfSome, OnOk};
ghost use Rattle.std.specs.Io.KnownBytes.{Appends};
ghost use Rattle.definitions.specs.Price.{price_report};

use std::io;
use std::io::{Read, Write};

// Room for the longest text: `price_room` (crates/print_price/specs/Texts.antt).
const TEXT_ROOM: usize = 3228;

// Prints the text of all that an input holds.
fn run<R: Read, W: Write>(input: &mut R, out: &mut W) -> io::Result<()>
    ensures { OnOk result (IfSome (R.remaining input.old) (λ s. Appends (W.contents out.old) (W.contents out.new) (price_report s))) }
{
    print_console::print_of::<R, W, _, TEXT_ROOM>(input, out, price_text::standprice)
}

fn main(rt: HostRuntime) -> io::Result<()> {
    run(&mut rt.stdin(), &mut rt.stdout())
}
