// What a line is answered, column by column. It is not printed by `write!`: what a method of `Output` appends is proved, and of what
// a formatter writes no contract says anything.
ghost use Rattle.std.specs.Prelude.{◌≡◌, length};

use rollcall::{Record, Reply, Rolled};
use text::Output;

// The answer of a call, the count after it, and the altitude, the time and the grade of a record that was found, or the number
// of a refusal.
pub(crate) fn put_answer(reply: Reply, out: &mut Output<'_>) {
    match reply.answer {
        Ok(Rolled::Cleared) => out.put_bytes(b" cleared "),
        Ok(Rolled::Added) => out.put_bytes(b" added "),
        Ok(Rolled::Renewed) => out.put_bytes(b" renewed "),
        Ok(Rolled::Removed) => out.put_bytes(b" removed "),
        Ok(Rolled::Found(_)) => out.put_bytes(b" found "),
        Ok(Rolled::Absent) => out.put_bytes(b" absent "),
        Ok(Rolled::Held) => out.put_bytes(b" held "),
        Err(_) => out.put_bytes(b" refused "),
    }
    // Rust has no From of a usize for a u64; nothing is lost.
    out.put_decimal(reply.count as u64);
    match reply.answer {
        Ok(Rolled::Found(record)) => {
            out.put_byte(b' ');
            put_sighting(record, b' ', out);
        }
        Err(refusal) => {
            out.put_byte(b' ');
            out.put_decimal(u64::from(u32::from(refusal)));
        }
        Ok(_) => {}
    }
}

// What a list that is shown is made of: a place or a record.
pub(crate) trait Listed {
    // Appends the item; the buffer keeps its length.
    fn put(&self, out: &mut Output<'_>)
        ensures { length out.new.buffer.now ≡ length out.old.buffer.now };
}

impl Listed for u16 {
    #[tactic(auto, using(text::proofs::Laws::appends_length))]
    fn put(&self, out: &mut Output<'_>) {
        out.put_decimal(u64::from(*self));
    }
}

impl Listed for Record {
    fn put(&self, out: &mut Output<'_>) {
        put_record(self, out);
    }
}

// A space and the items of a list, parted by commas, `-` where it has none. The buffer keeps its length.
#[tactic(auto, using(text::proofs::Laws::appends_length))]
pub(crate) fn put_list<T: Listed>(items: &[T], out: &mut Output<'_>)
    ensures { length out.new.buffer.now ≡ length out.old.buffer.now }
{
    if items.is_empty() {
        out.put_bytes(b" -");
    }
    for (i, item) in items.iter().enumerate() {
        out.put_byte(if i == 0 { b' ' } else { b',' });
        item.put(out);
    }
}

// LIVE:ADDRESS:ALTITUDE:TIME:GRADE, the address in at least six digits. The buffer keeps its length, here and in the
// functions below.
#[tactic(auto, using(text::proofs::Laws::appends_length))]
pub(crate) fn put_record(record: &Record, out: &mut Output<'_>)
    ensures { length out.new.buffer.now ≡ length out.old.buffer.now }
{
    out.put_bytes(if record.live { b"1:" } else { b"0:" });
    put_address(record.address, out);
    out.put_byte(b':');
    put_sighting(*record, b':', out);
}

// The digits above six have no leading zeros.
#[tactic(auto, using(text::proofs::Laws::appends_length))]
fn put_address(address: u32, out: &mut Output<'_>)
    ensures { length out.new.buffer.now ≡ length out.old.buffer.now }
{
    let [top, ..] = address.to_be_bytes();
    put_top(top, out);
    out.put_word(address);
}

#[tactic(auto, using(text::proofs::Laws::appends_length))]
fn put_top(top: u8, out: &mut Output<'_>)
    ensures { length out.new.buffer.now ≡ length out.old.buffer.now }
{
    match top {
        0 => {}
        1..=9 => out.put_byte(b'0' + top),
        10..=15 => out.put_byte(b'A' + (top - 10)),
        _ => out.put_hex(&[top]),
    }
}

// The altitude, the time and the grade.
fn put_sighting(record: Record, between: u8, out: &mut Output<'_>)
    ensures { length out.new.buffer.now ≡ length out.old.buffer.now }
{
    put_altitude(record.altitude, out);
    out.put_byte(between);
    out.put_decimal(record.time);
    out.put_byte(between);
    out.put_decimal(u64::from(u32::from(record.grade)));
}

#[tactic(auto, using(text::proofs::Laws::appends_length))]
fn put_altitude(altitude: Option<i32>, out: &mut Output<'_>)
    ensures { length out.new.buffer.now ≡ length out.old.buffer.now }
{
    match altitude {
        Some(feet) => out.put_signed(feet),
        None => out.put_byte(b'-'),
    }
}
