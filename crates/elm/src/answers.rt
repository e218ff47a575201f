// The columns of an answer, each with a space in front of it. They are not printed by `write!`:
// what a method of `Output` appends is proved, and of what a formatter writes no contract says anything.
use outcome::Refusal;
use text::Output;
use transponder::Reception;
use uplink_elm::Answer;

// The answer, its value, the acknowledgement, and whether the message is whole.
pub(crate) fn put_answer(answer: Result<Answer, Refusal>, out: &mut Output<'_>) {
    match answer {
        Ok(answer) => {
            put_reception(answer.reception, out);
            out.put_byte(b' ');
            out.put_hex(&answer.progress.acknowledgement.to_be_bytes());
            if answer.progress.whole {
                out.put_bytes(b" yes");
            } else {
                out.put_bytes(b" no");
            }
        }
        Err(refusal) => put_refusal(refusal, out),
    }
}

fn put_reception(reception: Reception, out: &mut Output<'_>) {
    match reception {
        Reception::Own => out.put_bytes(b" own -"),
        Reception::AllCall => out.put_bytes(b" allcall -"),
        Reception::Broadcast => out.put_bytes(b" broadcast -"),
        Reception::NotOurs(address) => {
            out.put_bytes(b" notours ");
            out.put_word(address);
        }
    }
}

fn put_refusal(refusal: Refusal, out: &mut Output<'_>) {
    out.put_bytes(b" refused ");
    out.put_decimal(u64::from(u32::from(refusal)));
    out.put_bytes(b" - -");
}

// The bytes of the segments held, in the order of their numbers, `-` for none.
pub(crate) fn put_held(held: u16, segments: &[u8; 160], out: &mut Output<'_>) {
    out.put_byte(b' ');
    if held == 0 {
        out.put_byte(b'-');
        return;
    }
    for (number, segment) in (0u8..16).zip(segments.chunks_exact(10)) {
        if uplink_elm::is_held(held, number) {
            out.put_hex(segment);
        }
    }
}

// The answer of a call of the sender, and the buffer after it.
pub(crate) fn put_sent(answer: Result<usize, Refusal>, buffer: &[u8], out: &mut Output<'_>) {
    match answer {
        Ok(n) => {
            out.put_bytes(b" sent ");
            // Rust has no From of a usize for a u64; nothing is lost.
            out.put_decimal(n as u64);
            out.put_bytes(b" - -");
        }
        Err(refusal) => put_refusal(refusal, out),
    }
    out.put_byte(b' ');
    if buffer.is_empty() {
        out.put_byte(b'-');
    } else {
        out.put_hex(buffer);
    }
}
