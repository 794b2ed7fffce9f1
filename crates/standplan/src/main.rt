// Reads one sheet from standard input, allows waits, and prints its plan or its refusal.
#![tactic(auto)]

ghost use Rattle.std.specs.Prelude.{IfSome, OnOk};
ghost use Rattle.std.specs.Io.KnownBytes.{Appends};
ghost use Rattle.definitions.specs.Output.{standplan};

use std::io;
use std::io::{Read, Write};

// Room for the longest text: `plan_room` (crates/print_plan/specs/Texts.antt).
const TEXT_ROOM: usize = 139300;

// Prints the text of all that an input holds.
fn run<R: Read, W: Write>(input: &mut R, out: &mut W) -> io::Result<()>
    ensures { OnOk result (IfSome (R.remaining input.old) (λ s. Appends (W.contents out.old) (W.contents out.new) (standplan s))) }
{
    print_console::print_of::<R, W, _, TEXT_ROOM>(input, out, print_sheet::standplan)
}

fn main(rt: HostRuntime) -> io::Result<()> {
    run(&mut rt.stdin(), &mut rt.stdout())
}
