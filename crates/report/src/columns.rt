// The answer to a line: its columns are those of a well-formed request, or it is malformed.
//
// An answer has at most 19 bytes, those of a malformed line, and 24 for each byte of the line (src/lib.rt).
ghost use Rattle.std.specs.Prelude.{◌+◌, ◌*◌, ◌≤◌, ◌≡◌, length};
ghost use Rattle.reading.specs.Lines.{columns};
ghost use Rattle.text.specs.Output.{Appends};
ghost use Rattle.report.specs.Sift.{answer_text};

use crate::answer::write_request;
use request::Request;
use text::Output;

// What follows the line's number.
#[tactic(auto, using(crate::proofs::Texts::answers))]
pub fn write_answer(output: &mut Output<'_>, line: &[u8])
    ensures written { Appends output.old output.new (answer_text (columns line.now)) }
    ensures line_len_bound { length (answer_text (columns line.now)) ≤ 19 + 24 * length line.now }
{
    match Request::of(line) {
        Some(request) if request.is_well_formed() => write_request(output, request),
        _ => output.put_bytes(b" malformed - - - -\n"),
    }
}
