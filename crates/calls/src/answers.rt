// The columns of an answer, each with a space in front of it. They are not printed by `write!`: what a method of `Output`
// appends is proved, and of what a formatter writes no contract says anything.
use altitude::Writing;
use altitude_code::Decoded;
use antennas::Antenna;
use outcome::Refusal;
use sensor::{Correction, Mark, Verdict};
use text::Output;
use transponder::Reception;

// What a call answers where it is not refused.
pub(crate) trait Columns {
    // Appends the answer, its value and the message `m` after the call, where the answer has it. Message and output stay two
    // parameters: they are lent from two buffers, and three of the seven kinds of answer print no message.
    fn put(self, m: &[u8], out: &mut Output<'_>);
}

// Appends the columns of an answer; `m` is the message after the call, without bytes where the call answers with none.
pub(crate) fn put<T: Columns>(answer: Result<T, Refusal>, m: &[u8], out: &mut Output<'_>) {
    match answer {
        Ok(columns) => columns.put(m, out),
        Err(refusal) => put_numbered(b" refused ", u32::from(refusal), m, out),
    }
}

// A word.
impl Columns for u32 {
    fn put(self, _m: &[u8], out: &mut Output<'_>) {
        put_word(b" value ", self, out);
    }
}

// A seal.
impl Columns for () {
    fn put(self, m: &[u8], out: &mut Output<'_>) {
        put_message(b" sealed - ", m, out);
    }
}

impl Columns for Reception {
    fn put(self, _m: &[u8], out: &mut Output<'_>) {
        match self {
            Reception::Own => out.put_bytes(b" own - -"),
            Reception::AllCall => out.put_bytes(b" allcall - -"),
            Reception::Broadcast => out.put_bytes(b" broadcast - -"),
            Reception::NotOurs(address) => put_word(b" notours ", address, out),
        }
    }
}

impl Columns for Verdict {
    fn put(self, m: &[u8], out: &mut Output<'_>) {
        match self {
            Verdict::Clean => put_message(b" clean - ", m, out),
            Verdict::Dense(window) => put_numbered(b" dense ", window, m, out),
            Verdict::NoFit => put_message(b" nofit - ", m, out),
            Verdict::Corrected(correction) => put_corrected(correction, m, out),
        }
    }
}

// The altitude of a reply, if its format has one.
impl Columns for Option<Decoded> {
    fn put(self, _m: &[u8], out: &mut Output<'_>) {
        match self {
            Some(Decoded::Feet(feet)) => {
                out.put_bytes(b" feet ");
                out.put_signed(feet);
                out.put_bytes(b" -");
            }
            Some(Decoded::NoAltitude) => out.put_bytes(b" none - -"),
            Some(Decoded::Metric) => out.put_bytes(b" metric - -"),
            Some(Decoded::Illegal) => out.put_bytes(b" illegal - -"),
            None => out.put_bytes(b" nofield - -"),
        }
    }
}

impl Columns for Writing {
    fn put(self, m: &[u8], out: &mut Output<'_>) {
        match self {
            Writing::Written => put_message(b" written - ", m, out),
            Writing::NoSuchField => put_message(b" nofield - ", m, out),
        }
    }
}

// Whose message is taken of two antennas'; `m` is the part that is returned.
impl Columns for Option<Antenna> {
    fn put(self, m: &[u8], out: &mut Output<'_>) {
        match self {
            Some(Antenna::Upper) => put_message(b" upper - ", m, out),
            Some(Antenna::Lower) => put_message(b" lower - ", m, out),
            None => put_message(b" neither - ", m, out),
        }
    }
}

fn put_word(answer: &[u8], w: u32, out: &mut Output<'_>) {
    out.put_bytes(answer);
    out.put_word(w);
    out.put_bytes(b" -");
}

// Window, bits changed and mark are one column, parted by commas.
fn put_corrected(correction: Correction, m: &[u8], out: &mut Output<'_>) {
    out.put_bytes(b" corrected ");
    out.put_decimal(u64::from(correction.window));
    out.put_byte(b',');
    out.put_decimal(u64::from(correction.bits));
    match correction.mark {
        Mark::Sole => out.put_bytes(b",sole"),
        Mark::Several => out.put_bytes(b",several"),
    }
    put_message(b" ", m, out);
}

// An answer with a decimal number, and the message in the last column.
fn put_numbered(answer: &[u8], n: u32, m: &[u8], out: &mut Output<'_>) {
    out.put_bytes(answer);
    out.put_decimal(u64::from(n));
    put_message(b" ", m, out);
}

// A message in the last column, `-` where it has no bytes.
fn put_message(before: &[u8], m: &[u8], out: &mut Output<'_>) {
    out.put_bytes(before);
    if m.is_empty() {
        out.put_byte(b'-');
    } else {
        out.put_hex(m);
    }
}
