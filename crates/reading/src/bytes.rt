// The bytes that pairs of digits write.
ghost use Rattle.std.specs.Prelude.{◌≡◌, ◌+◌, ◌*◌};
ghost use Rattle.reading.specs.Digits.{digit_value, hex_bytes};
ghost use Rattle.text.specs.Output.{append};

use crate::digits::digit_value;
use text::Output;

// The bytes go to the start of the buffer; the answer is their number.
#[tactic(auto, using(crate::proofs::Values::pairs))]
pub fn hex_bytes(s: &[u8], out: &mut [u8]) -> usize
    ensures { (out.new, result) ≡ append (out.old, 0) (hex_bytes s.now) }
{
    let mut output = Output::new(out);
    for pair in s.chunks_exact(2) {
        output.put_byte(byte_of(pair[0], pair[1]));
    }
    output.taken
}

fn byte_of(high: u8, low: u8) -> u8
    ensures { result ≡ digit_value high * 16 + digit_value low }
{
    digit_value(high) * 16 + digit_value(low)
}
