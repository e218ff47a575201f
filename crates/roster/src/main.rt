// The roll-call table from outside, one table and a line a call, so that another implementation can be compared with the
// built code. Input lines are a name and its arguments, parted by one space:
//     table RECORDS PLACES, count N, place I V, record I LIVE ADDRESS ALTITUDE TIME GRADE set the table, also to what no call
//     leaves; clear, add ADDRESS ALTITUDE TIME GRADE, remove ADDRESS, find ADDRESS are the calls; show prints the table
// with numbers as 1 to 20 decimal digits, an altitude as such a number with `-` in front of a negative one, or `-` alone
// where it is missing, LIVE as 0 or 1, GRADE as 0 (clean), 1 (sole) or 2 (several), and an address as 1 to 8 capital
// hexadecimal digits. What does not fit its width is malformed. RECORDS and PLACES are at most 1024; such a table is all zero
// and not live, and the first is `table 16 16`. Output columns: the line number from 1; the answer; the count after the line;
// then for `found` the altitude, the time and the grade, for `refused` the number of the refusal, for `shown` the places and
// the records. An input above 65,536 bytes is too long, and that is all that is said of it.
//
// What went wrong is said on standard error, and nothing else is; the exit status stays 0. bin/roster ends with 1 where
// something was said.
#![tactic(auto)]

mod answers;
mod lines;
mod table;

use console::Console;
use table::Roster;

// The longest answered line: a number of five digits, ` shown `, a count of 20, 1024 places of five digits and 1024 records of 45
// bytes, each with a comma or a space, and a line feed.
const LONGEST: usize = 53281;

// Each program has a main of its own, with its name and its state: elm's differs in these alone. What they share is the Console.
fn main(rt: HostRuntime) {
    let mut console = Console {
        program: "roster",
        input: rt.stdin(),
        output: rt.stdout(),
        errors: rt.stderr(),
    };
    let mut roster = Roster::new();
    // what went wrong has been said
    let _ = console.answer_lines(LONGEST, &mut roster);
}
