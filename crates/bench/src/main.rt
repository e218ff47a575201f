// Published and chosen vectors through the built code. Each line of the input is a vector: the word that names its
// source, a call, and its arguments, in hexadecimal digits, `-` for no bytes. Each line of the output is the same with
// what the call answers behind it. The calls are
//     parity FIELD                  R by the register, by the byte table and by the rows, side by side;
//     message MESSAGE               its remainder, and the address read from it;
//     register WORD BIT, backward WORD, overlay WORD;
//     reply MESSAGE WORD            the seal's answer, the message then, and its remainder;
//     interrogation MESSAGE WORD    the seal's answer, the message then, and the address read from it;
//     transponder MESSAGE WORD      the answer, and the message then;
//     altitude MESSAGE              the altitude read.
// The sources are
//     doc01       document 01, the bench values and the examples of the refused calls;
//     atc40       ATC-40 (source document 003): the rows of its two tables that can be read without a guess, its errata
//                 sheet, its example and its test patterns;
//     published   replies off the air, from the literature on Mode S;
//     pymodes     the altitudes that pyModeS is tested with (its test_common.py), each code in a reply that is zero
//                 elsewhere;
//     edge        the ends of what a call takes;
//     chosen      made up for this program;
//     rows        refused calls that meet the rows of document 01's table whose numbers follow: the lowest is answered,
//                 and the message stays. Of a message of another length than 7 or 14 bytes, one whose first bit is 1
//                 counts as meeting row 5.
#![tactic(auto)]

mod calls;
mod print;

use reading::{Lines, cut};
use std::io;
use std::io::{Read, Write};

fn main(rt: HostRuntime) -> io::Result<()> {
    run(&mut rt.stdin(), &mut rt.stdout())
}

fn run<R: Read, W: Write>(input: &mut R, to: &mut W) -> io::Result<()> {
    let mut vectors = [0u8; 65536];
    let read = intake::read_full(input, &mut vectors);
    for vector in Lines::new(&vectors[..read.size]) {
        show(to, vector)?;
    }
    Ok(())
}

fn show<W: Write>(to: &mut W, vector: &[u8]) -> io::Result<()> {
    to.write_all(vector)?;
    let (_, call) = cut(vector, b' ');
    let (name, arguments) = cut(call, b' ');
    let (first, second) = cut(arguments, b' ');
    calls::answer(to, name, first, second)?;
    to.write_all(b"\n")
}
