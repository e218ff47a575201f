// The calls of the libraries from outside, one a line, so that another implementation can be compared with the built
// code. Input lines are a name and its arguments, parted by one space:
//     register WORD BIT, bits FIELD, bytes FIELD, rows FIELD, remainder MESSAGE, address MESSAGE, overlay WORD,
//     backward WORD, reply MESSAGE WORD, interrogation MESSAGE WORD, transponder MESSAGE WORD,
//     sensor MESSAGE CONFIDENCE WORD LIMIT, altitude MESSAGE, write MESSAGE FEET STEP,
//     antennas OWN UPPER LEVEL LOWER LEVEL
// with fields, messages (UPPER and LOWER too) and confidence bits as an even number of capital hexadecimal digits, at most
// 64, `-` for no bytes; words and OWN as 1 to 8 such digits; a bit as 0 or 1; a limit as 1 to 9 decimal digits; feet as an
// optional `-` and 1 to 7 decimal digits; a step as 1 to 7 decimal digits; a level as 1 to 3 decimal digits, at most 255.
// Output lines have four columns: the line number from 1; the answer; its value, which is the number of the refusal, for
// `dense` the window, for `corrected` the window, the bits changed and the mark, parted by commas, and for `feet` the
// altitude; and for a seal, the sensor and `write` the message after the call, for `antennas` the bytes of the part. `-`
// fills what an answer lacks. An input above 65,536 bytes is too long, and that is all that is said of it.
//
// What went wrong is said on standard error, and nothing else is; the exit status stays 0. bin/calls ends with 1 where
// something was said.
#![tactic(auto)]

mod answers;
mod calls;

use calls::Calls;
use console::Console;

// The longest answered line: a number of five digits, ` refused 1 `, a message of 64 digits and a line feed.
const LONGEST: usize = 81;

fn main(rt: HostRuntime) {
    let mut console = Console {
        program: "calls",
        input: rt.stdin(),
        output: rt.stdout(),
        errors: rt.stderr(),
    };
    // what went wrong has been said
    let _ = console.answer_lines(LONGEST, &mut Calls);
}
