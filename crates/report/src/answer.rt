// The answer to a well-formed line: the call of the sensor.
ghost use Rattle.std.specs.Prelude.{◌≤◌, ◌≡◌, true, length};
ghost use Rattle.reading.specs.Digits.{hex_bytes, hex_number, decimal_number};
ghost use Rattle.text.specs.Output.{Appends};
ghost use Rattle.request.specs.Requests.{well_formed};
ghost use Rattle.report.specs.Sift.{line_end, request_columns};

use request::Request;
use text::Output;

// The bytes and the numbers that the columns write.
#[tactic(auto, using(crate::proofs::Texts::requested))]
pub(crate) fn write_request(output: &mut Output<'_>, request: Request<'_>)
    requires { well_formed request.message.now request.confidence.now request.word.now request.limit.now ≡ true }
    ensures written { Appends output.old output.new (line_end (request_columns (hex_bytes request.entry.message.now) (hex_bytes request.entry.confidence.now) (hex_number request.entry.word.now) (decimal_number request.entry.limit.now))) }
    ensures request_len_bound { length (line_end (request_columns (hex_bytes request.entry.message.now) (hex_bytes request.entry.confidence.now) (hex_number request.entry.word.now) (decimal_number request.entry.limit.now))) ≤ 70 }
{
    let mut message = [0u8; 14];
    let size = reading::hex_bytes(request.message, &mut message);
    let mut confidence = [0u8; 14];
    let count = reading::hex_bytes(request.confidence, &mut confidence);
    write_called(
        output,
        &mut message[..size],
        &confidence[..count],
        reading::hex_number(request.word),
        reading::decimal_number(request.limit),
    );
}

// The sensor is called; its verdict, and the message after the call: 70 bytes at most, which are 40 of a verdict, a space,
// 28 digits and the line feed.
#[tactic(auto, using(text::proofs::Laws::appending, crate::proofs::Texts::called), unfolding(crate::specs::Sift::request_columns))]
fn write_called(
    output: &mut Output<'_>,
    message: &mut [u8],
    confidence: &[u8],
    word: u32,
    limit: u32,
)
    requires { length message.old ≤ 14 }
    ensures written { Appends output.old output.new (line_end (request_columns message.old confidence.now word limit)) }
    ensures limit_len_bound { length (line_end (request_columns message.old confidence.now word limit)) ≤ 70 }
{
    let verdict = sensor::correct(message, confidence, word, limit);
    verdicts::write_verdict(output, verdict);
    output.put_byte(b' ');
    output.put_hex(message);
    output.put_byte(b'\n');
}
