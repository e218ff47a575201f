// Both ends of uplink extended length messages from outside, a line a call, with one receiver, so that another implementation can be
// compared with the built code. Input lines, parted by one space:
//     fresh, receive OWN MESSAGE
//     open ADDRESS DATA BYTES, round ADDRESS DATA ACK S BYTES, exchange ADDRESS DATA BYTES
// with OWN and ADDRESS as 1 to 8 capital hexadecimal digits, MESSAGE and DATA as an even number of them, at most 64 and 360, `-` for
// no bytes, ACK as four of them, S and BYTES as 1 to 3 decimal digits. A call of the second line is lent a buffer of BYTES bytes, at
// most 240, each 55.
// Output lines have six columns: the line number from 1; the answer; the address read, or the number of the refusal; the
// acknowledgement in four hexadecimal digits; `yes` or `no` for a message that is whole; and the bytes of the segments held
// after the line, in the order of their numbers. `-` fills what an answer lacks. The sender's calls are answered `sent` with the number
// of transmissions, or `refused`, and the last column is the buffer after the call. An input above 65,536 bytes is too long, and that is
// all that is said of it.
//
// What went wrong is said on standard error, and nothing else is; the exit status stays 0. bin/elm ends with 1 where
// something was said.
#![tactic(auto)]

mod answers;
mod calls;

use calls::End;
use console::Console;

// The longest answered line: a number of five digits, ` refused 12 - - ` and 240 bytes in 480 digits with a line feed.
const LONGEST: usize = 502;

fn main(rt: HostRuntime) {
    let mut console = Console {
        program: "elm",
        input: rt.stdin(),
        output: rt.stdout(),
        errors: rt.stderr(),
    };
    let mut end = End::new();
    // what went wrong has been said
    let _ = console.answer_lines(LONGEST, &mut end);
}
