// The calls by their names. A line without the form of a call is malformed.
use crate::answers::{put_answer, put_held, put_sent};
use console::{Answering, bytes, number, word};
use text::Output;
use uplink_elm::Receiver;

// The receiving end: the receiver, and the places of its segments.
#[derive(Drop)]
pub(crate) struct End {
    receiver: Receiver,
    segments: [u8; 160],
}

impl End {
    pub(crate) fn new() -> End {
        End {
            receiver: uplink_elm::fresh(),
            segments: [0; 160],
        }
    }

    // Nothing is appended where the line is malformed. The calls of the sender leave the receiver as it is.
    fn call(&mut self, columns: &[&[u8]], out: &mut Output<'_>) -> Option<()> {
        match columns {
            [b"fresh"] => {
                self.receiver = uplink_elm::fresh();
                out.put_bytes(b" fresh - - - -");
            }
            [b"receive", own, message] => self.receive(word(own)?, message, out)?,
            [name, address, data, numbers @ .., size] => send(
                name,
                word(address)?,
                data,
                numbers,
                size,
                out,
            )?,
            _ => return None,
        }
        Some(())
    }

    // A message of at most 32 bytes.
    fn receive(&mut self, own: u32, message: &[u8], out: &mut Output<'_>) -> Option<()> {
        let mut buffer = [0u8; 32];
        let n = bytes(message, &mut buffer)?;
        let received = uplink_elm::receive(own, &buffer[..n], self.receiver, &mut self.segments);
        self.receiver = received.receiver;
        put_answer(received.answer, out);
        self.put_held(out);
        Some(())
    }

    fn put_held(&self, out: &mut Output<'_>) {
        put_held(self.receiver.held, &self.segments, out);
    }
}

impl Answering for End {
    // Makes the call of a line and appends the columns of its answer.
    fn answer(&mut self, columns: &[&[u8]], out: &mut Output<'_>) {
        if self.call(columns, out).is_none() {
            out.put_bytes(b" malformed - - -");
            self.put_held(out);
        }
    }
}

// The sender's calls, on a message of at most 180 bytes. Each is lent a buffer of a size of at most 240.
fn send(
    name: &[u8],
    address: u32,
    data: &[u8],
    numbers: &[&[u8]],
    size: &[u8],
    out: &mut Output<'_>,
) -> Option<()> {
    let mut data_buffer = [0u8; 180];
    let n = bytes(data, &mut data_buffer)?;
    let data = &data_buffer[..n];
    let mut buffer = [0x55u8; 240];
    let lent = buffer.get_mut(..count(size)?)?;
    let sent = match (name, numbers) {
        (b"open", []) => uplink_elm_sending::open(address, data, lent),
        (b"exchange", []) => uplink_elm_sending::exchange(address, data, lent),
        (b"round", [acknowledgement, s]) => {
            uplink_elm_sending::round(address, data, bits(acknowledgement)?, count(s)?, lent)
        }
        _ => return None,
    };
    put_sent(sent, lent, out);
    Some(())
}

// 1 to 3 decimal digits.
fn count(s: &[u8]) -> Option<usize> {
    usize::try_from(number(s, 3)?).ok()
}

// 16 acknowledgement bits: four capital hexadecimal digits.
fn bits(s: &[u8]) -> Option<u16> {
    let four: &[u8; 4] = s.try_into().ok()?;
    u16::try_from(word(four)?).ok()
}
