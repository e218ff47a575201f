// Reads standard input, up to one byte more than sift takes, and writes what shift_report::tally makes of it: how many lines
// sift answers with what.
//
// What went wrong is said on standard error, and nothing else is; the exit status stays 0. bin/tally ends with 1 where
// something was said.
#![tactic(auto)]

ghost use Rattle.std.specs.Prelude.{OnOk, IfSome};
ghost use Rattle.std.specs.Io.KnownBytes.{Appends};
ghost use Rattle.shift_report.specs.Tally.{tally_output};

use console::Console;
use std::io;
use std::io::{Read, Write};

// A main of its own, like each program's: only `main` names the HostRuntime.
fn main(rt: HostRuntime) {
    let mut console = Console {
        program: "tally",
        input: rt.stdin(),
        output: rt.stdout(),
        errors: rt.stderr(),
    };
    // what went wrong has been said
    let _ = run(&mut console);
}

// Where all was read and written, the output is what is made of the whole input. Sift's `run` is of this form: they share
// console's `read` and `write` and the law of the proof; one function for both would take the call, its buffer's length and the
// definition of its answer, and each program would still state a contract of its own.
fn run<R: Read, W: Write, E: Write>(console: &mut Console<R, W, E>) -> io::Result<()>
    ensures { OnOk result (IfSome (R.remaining console.old.input) (λ xs. Appends (W.contents console.old.output) (W.contents console.new.output) (tally_output xs))) }
{
    let mut bytes = [0u8; 65537];
    let read = console.read(&mut bytes, "counted");
    let mut out = [0u8; 192];
    let length = shift_report::tally(&bytes[..read.size], &mut out);
    console.write(&out[..length])?;
    read.ended
}
