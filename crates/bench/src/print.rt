// Columns of output, each with a space in front of it.
use altitude_code::Decoded;
use outcome::Refusal;
use std::io;
use std::io::Write;
use text::Output;
use transponder::Reception;

// What a call answers where it is not refused.
pub(crate) trait Columns {
    fn put<W: Write>(self, to: &mut W) -> io::Result<()>;
}

pub(crate) fn answer<T: Columns, W: Write>(
    to: &mut W,
    answer: Result<T, Refusal>,
) -> io::Result<()> {
    match answer {
        Ok(columns) => columns.put(to),
        Err(refusal) => write!(to, " refused-{}", u32::from(refusal)),
    }
}

// A message in hexadecimal digits.
pub(crate) fn bytes<W: Write>(to: &mut W, m: &[u8]) -> io::Result<()> {
    let mut digits = [0u8; 64];
    let mut output = Output::new(&mut digits);
    output.put_hex(m);
    match output.bytes() {
        [] => write!(to, " -"),
        text => column(to, text),
    }
}

fn column<W: Write>(to: &mut W, s: &[u8]) -> io::Result<()> {
    to.write_all(b" ")?;
    to.write_all(s)
}

// A word.
impl Columns for u32 {
    fn put<W: Write>(self, to: &mut W) -> io::Result<()> {
        let mut digits = [0u8; 6];
        Output::new(&mut digits).put_word(self);
        column(to, &digits)
    }
}

// A seal.
impl Columns for () {
    fn put<W: Write>(self, to: &mut W) -> io::Result<()> {
        write!(to, " sealed")
    }
}

impl Columns for Reception {
    fn put<W: Write>(self, to: &mut W) -> io::Result<()> {
        match self {
            Reception::Own => write!(to, " own"),
            Reception::AllCall => write!(to, " allcall"),
            Reception::Broadcast => write!(to, " broadcast"),
            Reception::NotOurs(address) => {
                write!(to, " notours")?;
                address.put(to)
            }
        }
    }
}

// The altitude of a reply, if its format has one.
impl Columns for Option<Decoded> {
    fn put<W: Write>(self, to: &mut W) -> io::Result<()> {
        match self {
            Some(Decoded::Feet(feet)) => write!(to, " feet {feet}"),
            Some(Decoded::NoAltitude) => write!(to, " none"),
            Some(Decoded::Metric) => write!(to, " metric"),
            Some(Decoded::Illegal) => write!(to, " illegal"),
            None => write!(to, " nofield"),
        }
    }
}
