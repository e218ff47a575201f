// One output line for each input line, of at most 24 bytes for each byte read (src/lib.rt).
ghost use Rattle.std.specs.Prelude.{◌+◌, ◌*◌, ◌≤◌, ◌≡◌, length};
ghost use Rattle.reading.specs.Lines.{lines};
ghost use Rattle.text.specs.Output.{Appends};
ghost use Rattle.report.specs.Sift.{output_line, output_lines};

use crate::columns::write_answer;
use reading::Lines;
use text::Output;

// The lines of the input, numbered from 1.
#[tactic(auto, using(crate::proofs::Texts::numbering))]
pub(crate) fn write_lines(output: &mut Output<'_>, input: &[u8])
    requires { length input.now ≤ 65536 }
    ensures written { Appends output.old output.new (output_lines 1 (lines input.now)) }
    ensures input_len_bound { length (output_lines 1 (lines input.now)) ≤ 24 * (length input.now + 1) }
{
    for (index, line) in Lines::new(input).enumerate() {
        write_line(output, index + 1, line);
    }
}

// A line's number, of at most 5 digits, and its answer.
#[tactic(auto, using(text::proofs::Laws::appending, crate::proofs::Texts::line_length), unfolding(crate::specs::Sift::output_line))]
fn write_line(output: &mut Output<'_>, number: usize, line: &[u8])
    requires { number ≤ 99999 }
    ensures written { Appends output.old output.new (output_line number line.now) }
    ensures line_len_bound { length (output_line number line.now) ≤ 24 * (length line.now + 1) }
{
    // Rust has no `From` of a usize for a u64, and a `try_from` would only test again
    output.put_decimal(number as u64);
    write_answer(output, line);
}
