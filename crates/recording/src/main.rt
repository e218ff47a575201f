// Reads standard input in pieces of at most 4,096 bytes and writes what stream makes of each, until the input ends. What is held
// between two pieces is stream's state, and no more.
//
// What went wrong is said on standard error, and nothing else is; the exit status stays 0. bin/recording ends with 1 where
// something was said.
#![tactic(auto)]

use console::{Console, UNREAD, UNWRITTEN};
use std::fmt;
use std::io::{Read, Write};
use stream::{Refused, State};

// Why what follows is not answered.
#[derive(Clone, Copy, Debug)]
enum Failure {
    Unread,
    Unwritten,
    TooManyLines,
    TooManyPieces,
}

impl fmt::Display for Failure {
    fn fmt<W: fmt::Write>(&self, f: &mut fmt::Formatter<W>) -> fmt::Result {
        match self {
            Failure::Unread => write!(f, "{UNREAD}"),
            Failure::Unwritten => write!(f, "{UNWRITTEN}"),
            Failure::TooManyLines => write!(
                f,
                "9,223,372,036,854,775,808 lines have ended: what follows is not answered"
            ),
            Failure::TooManyPieces => write!(
                f,
                "the input came in more than 18,446,744,073,709,551,615 pieces: what follows is not answered"
            ),
        }
    }
}

impl From<Refused> for Failure {
    fn from(_refused: Refused) -> Failure {
        Failure::TooManyLines
    }
}

fn main(rt: HostRuntime) {
    let mut console = Console {
        program: "recording",
        input: rt.stdin(),
        output: rt.stdout(),
        errors: rt.stderr(),
    };
    if let Err(failure) = run(&mut console) {
        console.say(&failure);
    }
}

// A proved loop has to end, and nothing says that an input does. So the loop has as many turns as no run uses up.
fn run<R: Read, W: Write, E: Write>(console: &mut Console<R, W, E>) -> Result<(), Failure> {
    let mut piece = [0u8; 4096];
    let mut out = [0u8; 255616];
    let (mut state, header) = State::begin(&mut out);
    write(&mut console.output, &out[..header])?;
    for _ in 0..u64::MAX {
        let size = console.input.read(&mut piece).map_err(|_| Failure::Unread)?;
        if size == 0 {
            let last = state.finish(&mut out)?;
            return write(&mut console.output, &out[..last]);
        }
        let answered = state.feed(&piece[..size], &mut out)?;
        write(&mut console.output, &out[..answered])?;
    }
    Err(Failure::TooManyPieces)
}

fn write<W: Write>(output: &mut W, bytes: &[u8]) -> Result<(), Failure> {
    output.write_all(bytes).map_err(|_| Failure::Unwritten)
}
