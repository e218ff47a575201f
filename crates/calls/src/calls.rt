// The calls by their names. A line without the form of a call is malformed.
use crate::answers::put;
use console::{Answering, bit, bytes, number, word};
use text::Output;

// The calls keep nothing from line to line.
#[derive(Drop)]
pub(crate) struct Calls;

impl Answering for Calls {
    // Makes the call of a line and appends the columns of its answer.
    fn answer(&mut self, columns: &[&[u8]], out: &mut Output<'_>) {
        if call(columns, out).is_none() {
            out.put_bytes(b" malformed - -");
        }
    }
}

// Nothing is appended where the line is malformed.
fn call(columns: &[&[u8]], out: &mut Output<'_>) -> Option<()> {
    match columns {
        [b"register", register, entering] => {
            put(
                division::register_step(word(register)?, bit(entering)?),
                b"",
                out,
            );
        }
        [b"backward", register] => put(division::register_back(word(register)?), b"", out),
        [b"overlay", argument] => put(division::uplink_overlay(word(argument)?), b"", out),
        [b"antennas", own, upper, p, lower, q] => receive(word(own)?, (upper, p), (lower, q), out)?,
        [name, message, arguments @ ..] => {
            let mut buffer = [0u8; 32];
            let n = bytes(message, &mut buffer)?;
            call_on(name, &mut buffer[..n], arguments, out)?;
        }
        _ => return None,
    }
    Some(())
}

// The calls on a field or a message, at most 32 bytes.
fn call_on(name: &[u8], m: &mut [u8], arguments: &[&[u8]], out: &mut Output<'_>) -> Option<()> {
    match (name, arguments) {
        (b"bits", []) => put(division::parity_by_register(m), b"", out),
        (b"bytes", []) => put(division::parity_by_bytes(m), b"", out),
        (b"rows", []) => put(division::parity_by_rows(m), b"", out),
        (b"remainder", []) => put(division::message_remainder(m), b"", out),
        (b"address", []) => put(division::address_read(m), b"", out),
        (b"altitude", []) => put(altitude::read_altitude(m), b"", out),
        (b"transponder", [own]) => put(transponder::receive(word(own)?, m), b"", out),
        (b"reply", [argument]) => put(encoder::seal_reply(m, word(argument)?), m, out),
        (b"interrogation", [argument]) => {
            put(encoder::seal_interrogation(m, word(argument)?), m, out);
        }
        (b"write", [feet, step]) => {
            put(
                altitude::write_altitude(m, feet_of(feet)?, number(step, 7)?),
                m,
                out,
            );
        }
        (b"sensor", [confidence, argument, limit]) => {
            let mut buffer = [0u8; 32];
            let n = bytes(confidence, &mut buffer)?;
            put(
                sensor::correct(m, &buffer[..n], word(argument)?, number(limit, 9)?),
                m,
                out,
            );
        }
        _ => return None,
    }
    Some(())
}

// An optional `-` and 1 to 7 decimal digits.
fn feet_of(s: &[u8]) -> Option<i32> {
    match s {
        [b'-', digits @ ..] => feet_of_digits(digits)?.checked_neg(),
        _ => feet_of_digits(s),
    }
}

fn feet_of_digits(s: &[u8]) -> Option<i32> {
    i32::try_from(number(s, 7)?).ok()
}

// The two-antenna transponder, with what both received: a message of at most 32 bytes, and its level. The part that is
// returned is a part of one of them.
fn receive(
    own: u32,
    upper: (&[u8], &[u8]),
    lower: (&[u8], &[u8]),
    out: &mut Output<'_>,
) -> Option<()> {
    let mut upper_buffer = [0u8; 32];
    let n = bytes(upper.0, &mut upper_buffer)?;
    let mut lower_buffer = [0u8; 32];
    let k = bytes(lower.0, &mut lower_buffer)?;
    let (upper_level, lower_level) = (level(upper.1)?, level(lower.1)?);
    let (upper, lower) = (&upper_buffer[..n], &lower_buffer[..k]);
    let antenna = antennas::taken_antenna(own, upper, upper_level, lower, lower_level);
    let part = antennas::taken_field(own, upper, upper_level, lower, lower_level);
    put(antenna, part, out);
    Some(())
}

// 1 to 3 decimal digits, a number of at most 255.
fn level(s: &[u8]) -> Option<u8> {
    u8::try_from(number(s, 3)?).ok()
}
