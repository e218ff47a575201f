// The program sift as a function: from the whole input to the whole output (document 01, 'The program sift'). It takes
// the input apart into lines and columns and calls the sensor; `request` says which lines are well-formed, and
// `verdicts` writes what the sensor answers.
//
// Each function appends to an output, and its contract names the text it appends by a definition of specs/Sift.antt. The
// second promise of each bounds that text, so that the buffer of `sift` has room for every output.
//
// The bound is 24 bytes for each byte of the input. An empty line is one byte, its line feed, and its output has at most 24:
// 5 digits of the line's number, since there are at most 65,536 lines, and the 19 bytes ` malformed - - - -` with a line
// feed. A longer malformed line has no more, and a well-formed line, with the 6 digits of its word and others, at most 5 +
// 70 (src/answer.rt), which is less than 24 * 7. So k bytes in front of a line feed give at most 24 * (k + 1) bytes. The
// last line may lack its line feed, so 65,536 bytes give at most 24 * 65,537. With the header's 37 that is 1,572,925, and
// the buffer has that rounded up to a multiple of 64: 1,572,928.
#![tactic(auto)]

ghost use Rattle.std.specs.Prelude.{◌≤◌, ◌≡◌, ◌++◌, length, take, drop};
ghost use Rattle.text.specs.Output.{Appends};
ghost use Rattle.report.specs.Sift.{sift_output};

use lines::write_lines;
use text::Output;

mod answer;
mod columns;
mod lines;

pub use columns::write_answer;

// The output stands at the start of the buffer, whose other bytes stay; the answer is its length, and not the part itself, which
// would keep the buffer lent and say nothing of its other bytes. The third promise
// follows from the first two: with it a caller lends `&out[..r]` without a proof.
#[tactic(auto, using(text::proofs::Laws::at_start))]
pub fn sift(input: &[u8], out: &mut [u8; 1572928]) -> usize
    ensures value { result ≡ length (sift_output input.now) }
    ensures out_after { out.new ≡ sift_output input.now ++ drop (length (sift_output input.now)) out.old }
    ensures upper_bound { (result ≤ length out.new) × (result ≡ length (take result out.new)) }
{
    let mut output = Output::new(out);
    write_output(&mut output, input);
    output.taken
}

#[tactic(auto, using(crate::proofs::Texts::outputs))]
fn write_output(output: &mut Output<'_>, input: &[u8])
    ensures written { Appends output.old output.new (sift_output input.now) }
    ensures input_len_bound { length (sift_output input.now) ≤ 1572928 }
{
    output.put_bytes(b"line answer window bits mark message\n");
    if input.len() <= 65536 {
        write_lines(output, input);
    } else {
        output.put_bytes(b"too long\n");
    }
}
