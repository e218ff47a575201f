// The three streams of a program. What goes wrong with two of them is said on the third, and nothing else is.
ghost use Rattle.std.specs.Prelude.{◌≡◌, ◌<◌, ◌≤◌, length, take, IfSome, OnOk};
ghost use Rattle.std.specs.Io.KnownBytes.{Appends, Consumes, IsAtEnd};

use arrayvec::ArrayString;
use intake::Filled;
use std::fmt::{Display, Write as _};
use std::io::{Read, Write};
use std::{fmt, io};

// What is said where a stream fails.
pub const UNREAD: &str = "standard input could not be read to its end";

pub const UNWRITTEN: &str = "standard output could not be written to its end";

// That the input is too long, and what becomes of no line of it.
#[derive(Clone, Copy)]
struct TooLong<'a> {
    done: &'a str,
}

impl Display for TooLong<'_> {
    fn fmt<W: fmt::Write>(&self, f: &mut fmt::Formatter<W>) -> fmt::Result {
        write!(
            f,
            "the input is above 65,536 bytes, too long: no line is {}",
            self.done
        )
    }
}

// The longest input that is taken has as many bytes.
pub const LIMIT: usize = 65536;

#[derive(Drop)]
pub struct Console<R, W, E> {
    pub program: &'static str,
    pub input: R,
    pub output: W,
    pub errors: E,
}

impl<R: Read, W: Write, E: Write> Console<R, W, E> {
    // Reads the input, up to one byte more than is taken. What becomes of the lines of a longer one is said in one word.
    pub fn read(&mut self, bytes: &mut [u8; 65537], done: &str) -> Filled
        ensures in_bounds { result.size ≤ length bytes.new }
        ensures bytes { Consumes (R.remaining self.old.input) (R.remaining self.new.input) (take result.size bytes.new) }
        ensures end { OnOk result.ended (result.size < length bytes.new → IsAtEnd (R.remaining self.new.input)) }
        ensures first { OnOk result.ended (IfSome (R.remaining self.old.input) (λ xs. take result.size bytes.new ≡ take (length bytes.new) xs)) }
        ensures output { self.new.output ≡ self.old.output }
    {
        let read = intake::read_full(&mut self.input, bytes);
        if LIMIT < read.size {
            self.say(&TooLong { done });
        } else if read.ended.is_err() {
            self.say(&UNREAD);
        }
        read
    }

    // Writes to the output.
    pub fn write(&mut self, bytes: &[u8]) -> io::Result<()>
        ensures ok { OnOk result (Appends (W.contents self.old.output) (W.contents self.new.output) bytes.now) }
        ensures input { self.new.input ≡ self.old.input }
    {
        // Not `inspect_err`: of a closure that borrows the console it is not proved that input and output stay.
        let written = self.output.write_all(bytes);
        if written.is_err() {
            self.say(&UNWRITTEN);
        }
        written
    }

    // In one write, so that no other program's words come between. Whether standard error takes it can no longer be said anywhere; so
    // nothing is promised of what it holds. A program says at most 110 bytes; what is longer than the line is written part by part.
    #[cold]
    pub fn say<D: Display>(&mut self, what: &D)
        ensures input { self.new.input ≡ self.old.input }
        ensures output { self.new.output ≡ self.old.output }
    {
        let mut line = ArrayString::<160>::new();
        let _ = match writeln!(line, "{}: {what}", self.program) {
            Ok(()) => self.errors.write_all(line.as_bytes()),
            Err(_) => writeln!(self.errors, "{}: {what}", self.program),
        };
    }
}
