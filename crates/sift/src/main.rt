// Reads standard input, up to one byte more than sift takes, and writes what report::sift makes of it.
//
// The longest output has 1,561,795 bytes, of 65,536 empty lines (crates/edges prints it). The buffer has 1,572,928: a bound
// that is proved, and a little wider (report/src/lib.rt).
//
// What went wrong is said on standard error, and nothing else is; the exit status stays 0. bin/sift ends with 1 where
// something was said.
#![tactic(auto)]

ghost use Rattle.std.specs.Prelude.{OnOk, IfSome};
ghost use Rattle.std.specs.Io.KnownBytes.{Appends};
ghost use Rattle.report.specs.Sift.{sift_output};

use console::Console;
use std::io;
use std::io::{Read, Write};

fn main(rt: HostRuntime) {
    let mut console = Console {
        program: "sift",
        input: rt.stdin(),
        output: rt.stdout(),
        errors: rt.stderr(),
    };
    // what went wrong has been said
    let _ = run(&mut console);
}

// Where all was read and written, the output is what is made of the whole input.
fn run<R: Read, W: Write, E: Write>(console: &mut Console<R, W, E>) -> io::Result<()>
    ensures { OnOk result (IfSome (R.remaining console.old.input) (λ xs. Appends (W.contents console.old.output) (W.contents console.new.output) (sift_output xs))) }
{
    let mut bytes = [0u8; 65537];
    let read = console.read(&mut bytes, "answered");
    let mut out = [0u8; 1572928];
    let length = report::sift(&bytes[..read.size], &mut out);
    console.write(&out[..length])?;
    read.ended
}
