// The calls by their names. A call is made on what its arguments write, whatever their form.
use crate::print;
use reading::hex_number;
use std::io;
use std::io::Write;

// Makes the call and prints what it answers.
pub(crate) fn answer<W: Write>(
    to: &mut W,
    name: &[u8],
    first: &[u8],
    second: &[u8],
) -> io::Result<()> {
    match name {
        b"register" => {
            let one = matches!(second, b"1");
            print::answer(to, division::register_step(hex_number(first), one))
        }
        b"backward" => print::answer(to, division::register_back(hex_number(first))),
        b"overlay" => print::answer(to, division::uplink_overlay(hex_number(first))),
        _ => {
            let mut buffer = [0u8; 16];
            let n = reading::hex_bytes(first, &mut buffer);
            match buffer.get_mut(..n) {
                Some(m) => on_message(to, name, m, hex_number(second)),
                None => Ok(()),
            }
        }
    }
}

// The calls with a field or a message, of at most 16 bytes.
fn on_message<W: Write>(to: &mut W, name: &[u8], m: &mut [u8], word: u32) -> io::Result<()> {
    match name {
        b"parity" => {
            print::answer(to, division::parity_by_register(m))?;
            print::answer(to, division::parity_by_bytes(m))?;
            print::answer(to, division::parity_by_rows(m))
        }
        b"message" => {
            print::answer(to, division::message_remainder(m))?;
            print::answer(to, division::address_read(m))
        }
        b"altitude" => print::answer(to, altitude::read_altitude(m)),
        b"transponder" => {
            print::answer(to, transponder::receive(word, m))?;
            print::bytes(to, m)
        }
        b"reply" => {
            print::answer(to, encoder::seal_reply(m, word))?;
            print::bytes(to, m)?;
            print::answer(to, division::message_remainder(m))
        }
        _ => {
            print::answer(to, encoder::seal_interrogation(m, word))?;
            print::bytes(to, m)?;
            print::answer(to, division::address_read(m))
        }
    }
}
