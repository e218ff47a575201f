// The altitude of a reply: its 13-bit code at bits 20 to 32 of formats 4 and 20, read and written.
//
// Both calls check the message first, with no byte touched. What they know of the code are the public functions of
// altitude_code and their contracts.
#![tactic(auto)]

ghost use Rattle.std.specs.Prelude.{◌<◌, ◌≤◌, ◌^◌, ◌≡◌, cond, length};
ghost use Rattle.outcome.specs.Outcomes.{admission};
ghost use Rattle.altitude.specs.Fields.{has_altitude, altitude_code, with_code};
ghost use Rattle.altitude.specs.Answers.{said_altitude, said_writing, checked, reading_of, reading_outcome, writing_outcome, writing_after};

use altitude_code::Decoded;
use outcome::{Refusal, refuse_unless};

// Whether an altitude was written; a reply in another format than 4 and 20 has no such field. Two names, which an Option of nothing
// would not give a caller.
#[derive(Clone, Copy, Debug, PartialEq, Eq)]
pub enum Writing {
    Written,
    NoSuchField,
}

// Reads the altitude of a reply, or None where its format has none.
#[tactic(auto, using(crate::proofs::Answering::reading))]
pub fn read_altitude(m: &[u8]) -> Result<Option<Decoded>, Refusal>
    ensures { said_altitude result ≡ reading_outcome m.now }
{
    check(m)?;
    Ok(read_field(m))
}

// Writes an altitude, in steps of 25 or 100 feet, in a reply; its parity field stays.
#[tactic(auto, using(crate::proofs::Answering::writing))]
pub fn write_altitude(m: &mut [u8], feet: i32, step: u32) -> Result<Writing, Refusal>
    ensures result_value { said_writing result ≡ writing_outcome m.old feet step }
    ensures m_after { m.new ≡ writing_after m.old feet step }
{
    check(m)?;
    let code = altitude_code::encode(feet, step).ok_or(Refusal::AltitudeNotInCode)?;
    Ok(write_field(m, code))
}

// Rows 1 and 5 of the refusals, which hold for both calls.
#[tactic(auto, unfolding(crate::specs::Answers::checked))]
fn check(m: &[u8]) -> Result<(), Refusal>
    ensures { admission result ≡ checked m.now }
{
    refuse_unless(message::is_message_length(m.len()), Refusal::WrongLength)?;
    refuse_unless(message::first_bit_agrees(m), Refusal::FirstBitContradicts)
}

// Reads the altitude of a message of at least four bytes. That it has four stands in four contracts: they are lent the message, as
// the calls are, and an array of its first four bytes would be taken from it and put back.
#[tactic(auto, unfolding(crate::specs::Answers::reading_of))]
fn read_field(m: &[u8]) -> Option<Decoded>
    requires { 4 ≤ length m.now }
    ensures { result ≡ reading_of m.now }
{
    has_altitude(m).then(|| altitude_code::decode(code_in(m)))
}

// Writes a code in a message of at least four bytes, if its format has an altitude.
fn write_field(m: &mut [u8], code: u32) -> Writing
    requires in_bounds { 4 ≤ length m.old }
    requires code_bound { code < 2 ^ 13 }
    ensures value { result ≡ cond (has_altitude m.old) Writing.Written Writing.NoSuchField }
    ensures m_after { m.new ≡ cond (has_altitude m.old) (with_code m.old code) m.old }
{
    if has_altitude(m) {
        write_code(m, code);
        Writing::Written
    } else {
        Writing::NoSuchField
    }
}

// Whether the format is 4 or 20.
#[tactic(auto, unfolding(crate::specs::Fields::has_altitude))]
fn has_altitude(m: &[u8]) -> bool
    ensures { result ≡ has_altitude m.now }
{
    matches!(message::format_number(m), 4 | 20)
}

// Bits 20 to 32: the low five bits of the third byte, and the fourth.
#[tactic(auto, using(crate::proofs::Placing::code_is))]
fn code_in(m: &[u8]) -> u32
    requires { 4 ≤ length m.now }
    ensures { result ≡ altitude_code m.now }
{
    let third = u32::from(m[2]);
    let fourth = u32::from(m[3]);
    third % 32 * 256 + fourth
}

// Bits 17 to 19, the upper three of the third byte, stay.
#[tactic(auto, using(crate::proofs::Placing::with_is))]
fn write_code(m: &mut [u8], code: u32)
    requires in_bounds { 4 ≤ length m.old }
    requires code_bound { code < 2 ^ 13 }
    ensures { m.new ≡ with_code m.old code }
{
    let kept = m[2] / 32;
    let [_, _, upper, lower] = code.to_be_bytes();
    m[2] = kept * 32 + upper;
    m[3] = lower;
}
