// The program tally as a function: from the whole input to the whole output (document 02, Point 9). It has sift answer the
// input, and counts in what sift printed; so lines and columns are taken apart, and the sensor is called, in one place.
//
// Each function appends to an output, as those of `report` do. The second promise of each bounds what it appends:
// a name has at most 9 bytes, a number 10 digits, so that the eight lines have at most 47 + 8 * 12 bytes.
#![tactic(auto)]

ghost use Rattle.std.specs.Prelude.{◌≤◌, ◌≡◌, ◌++◌, length, take, drop};
ghost use Rattle.text.specs.Output.{Appends};
ghost use Rattle.shift_report.specs.Tally.{tally_output};

use page::write_page;
use text::Output;

mod counting;
mod page;

// As `report::sift`: one function for both would take the writer and the length of its array, and be no shorter.
//
// The output stands at the start of the buffer, whose other bytes stay; the answer is its length. The third promise
// follows from the first two: with it a caller lends `&out[..r]` without a proof.
#[tactic(auto, using(text::proofs::Laws::at_start))]
pub fn tally(input: &[u8], out: &mut [u8; 192]) -> usize
    ensures value { result ≡ length (tally_output input.now) }
    ensures out_after { out.new ≡ tally_output input.now ++ drop (length (tally_output input.now)) out.old }
    ensures upper_bound { (result ≤ length out.new) × (result ≡ length (take result out.new)) }
{
    let mut output = Output::new(out);
    write_tally(&mut output, input);
    output.taken
}

#[tactic(auto, using(crate::proofs::Printing::outputs, std::proofs::lemmas::Grind::common_steps))]
fn write_tally(output: &mut Output<'_>, input: &[u8])
    ensures written { Appends output.old output.new (tally_output input.now) }
    ensures input_len_bound { length (tally_output input.now) ≤ 192 }
{
    if input.len() <= 65536 {
        let mut printed = [0u8; 1572928];
        let size = report::sift(input, &mut printed);
        write_page(output, &printed[..size]);
    } else {
        output.put_bytes(b"too long\n");
    }
}
