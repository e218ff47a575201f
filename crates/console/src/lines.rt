// The lines of an input and their columns, and the answering of an input line by line.
ghost use Rattle.std.specs.Prelude.{◌≡◌, ◌<◌, map, take, length, OnOk, IfSome};
ghost use Rattle.std.specs.Io.KnownBytes.{Appends};
ghost use Rattle.text.specs.Ascii.{ascii};
ghost use Rattle.reading.specs.Lines.{columns};

use crate::streams::{Console, LIMIT};
use arrayvec::ArrayVec;
use reading::Lines;
use std::io;
use std::io::{Read, Write};
use text::Output;

// The columns of a line, parted by one space each: the first eight, one more than any call has.
pub fn columns<'a>(line: &'a [u8]) -> ArrayVec<&'a [u8], 8>
    ensures { map (λ c. c.now) result.items ≡ take 8 (columns line.now) }
{
    let mut columns = ArrayVec::new();
    for column in line.split(|b| *b == b' ').take(8) {
        let _ = columns.try_push(column);
    }
    columns
}

// What a program makes of a line: it appends what the line is answered. A trait, and no closure: that a closure can be called would be
// asked of whoever lends it.
pub trait Answering {
    fn answer(&mut self, columns: &[&[u8]], out: &mut Output<'_>);
}

impl<R: Read, W: Write, E: Write> Console<R, W, E> {
    // Reads the input and writes for each line its number from 1, what `answering` appends for its columns, and a line feed. An
    // answered line has at most `longest` bytes. An input above the limit is too long, and that is all that is written. Of a
    // shorter one the promise says nothing, since it knows nothing of what is appended.
    pub fn answer_lines<A: Answering>(
        &mut self,
        longest: usize,
        answering: &mut A,
    ) -> io::Result<()>
        ensures { OnOk result (IfSome (R.remaining self.old.input) (λ xs. 65536 < length xs → Appends (W.contents self.old.output) (W.contents self.new.output) (ascii "too long\n"))) }
    {
        let mut bytes = [0u8; 65537];
        let read = self.read(&mut bytes, "answered");
        if read.size <= LIMIT {
            self.answer_input(&bytes[..read.size], longest, answering)?;
        } else {
            self.write(b"too long\n")?;
        }
        read.ended
    }

    fn answer_input<A: Answering>(
        &mut self,
        input: &[u8],
        longest: usize,
        answering: &mut A,
    ) -> io::Result<()> {
        let mut buffer = [0u8; 65536];
        let mut out = Output::new(&mut buffer);
        // a cast, since Rust has no From of a usize for a u64
        for (number, line) in (1..=LIMIT as u64).zip(Lines::new(input)) {
            out.put_decimal(number);
            answering.answer(columns(line).as_slice(), &mut out);
            out.put_byte(b'\n');
            if out.buffer.len() < out.taken.saturating_add(longest) {
                self.flush(&mut out)?;
            }
        }
        self.flush(&mut out)
    }

    // Writes what is taken of the output buffer.
    fn flush(&mut self, out: &mut Output<'_>) -> io::Result<()> {
        self.write(out.bytes())?;
        out.taken = 0;
        Ok(())
    }
}
