// The register, one bit at a step; R of a field by it; and the register run backwards.
ghost use Rattle.std.specs.Prelude.{◌<◌, ◌*◌, ◌^◌, ◌≡◌, length, Ok};
ghost use Rattle.division.specs.Division.{remainder, shift_in, backward};
ghost use Rattle.division.specs.Ways.{register_from, register_way};
ghost use Rattle.message.specs.Message.{number};
ghost use Rattle.division.specs.Answers.{said, register_answer, parity_answer, backward_answer};

use crate::GENERATOR;
use message::{is_field_length, is_word};
use outcome::{Refusal, refuse_unless};

// What the register holds: a word of 24 bits.
#[derive(Clone, Copy)]
pub(crate) struct Register {
    pub(crate) word: u32,
    ghost fits: { word < 2 ^ 24 },
}

impl Register {
    // No register is a literal: of a literal that a loop shifts, the check loses the bound.
    pub(crate) fn new(word: u32) -> Self
        requires { word < 2 ^ 24 }
        ensures { result.word ≡ word }
    {
        Register { word }
    }
}

// The register after one bit more: the remainder of x·r + bit·x^24.
#[tactic(auto, using(outcome::proofs::Laws::rows, message::proofs::Laws::word_lt), unfolding(crate::specs::Answers::register_answer))]
pub fn register_step(r: u32, bit: bool) -> Result<u32, Refusal>
    ensures { said result ≡ register_answer r bit }
{
    refuse_unless(is_word(r), Refusal::WordTooLarge)?;
    Ok(shift_bit(Register::new(r), u32::from(bit)).word)
}

#[tactic(auto, using(crate::proofs::Shifting::one_shift), unfolding(crate::specs::Division::shift_in))]
fn shift_bit(r: Register, bit: u32) -> Register
    requires { bit < 2 }
    ensures { result.word ≡ shift_in 1 r.word bit }
{
    Register::new(reduced((r.word * 2) ^ (bit * 0x1000000)))
}

// One step of division, where one is enough. It chooses: with a product of the top coefficient and the generator, R of a field by the
// register takes 1.6 times as long.
#[tactic(auto, using(crate::proofs::Dividing::one_reduction))]
pub(crate) fn reduced(dividend: u32) -> u32
    requires { dividend < 2 ^ 25 }
    ensures { result ≡ remainder dividend }
{
    if dividend < 0x1000000 {
        dividend
    } else {
        dividend ^ GENERATOR
    }
}

// The register after the eight bits of a byte, bit 1 first.
#[tactic(auto, using(crate::proofs::Fields::register_steps))]
fn shift_byte(r: Register, byte: u8) -> Register
    ensures { result.word ≡ register_from r.word 8 byte }
{
    let bits = u32::from(byte);
    let mut state = r;
    for taken in 0..8u32 {
        let bit = (bits >> (7 - taken)) % 2;
        state = shift_bit(state, bit);
    }
    state
}

// The register after a field of any length, from 0.
#[tactic(auto, using(crate::proofs::Fields::register_steps))]
fn by_register(field: &[u8]) -> u32
    ensures { result ≡ register_way (8 * length field.now) (number field.now) }
{
    let mut state = Register::new(0);
    for &byte in field {
        state = shift_byte(state, byte);
    }
    state.word
}

// R of a field, bit by bit. With the other ways it shares the line that refuses: a function that took the way as a parameter would
// be longer than each call, and its clauses would say the way's contract again.
#[tactic(auto, using(outcome::proofs::Laws::rows, crate::proofs::Fields::ways), unfolding(crate::specs::Answers::parity_answer))]
pub fn parity_by_register(field: &[u8]) -> Result<u32, Refusal>
    ensures { said result ≡ parity_answer field.now }
{
    refuse_unless(is_field_length(field.len()), Refusal::WrongLength)?;
    Ok(by_register(field))
}

// What is left of the generator when it is divided by x: its lowest coefficient meets that of an odd word.
const HALF_GENERATOR: u32 = 0xFFFA04;

// The word whose product with x has the remainder r. The second promise follows from the first: with it a caller unwraps.
#[tactic(auto, using(outcome::proofs::Laws::rows, message::proofs::Laws::words), unfolding(crate::specs::Answers::backward_answer))]
pub fn register_back(r: u32) -> Result<u32, Refusal>
    ensures value { said result ≡ backward_answer r }
    ensures ok { r < 2 ^ 24 → result ≡ Ok (backward r) }
{
    refuse_unless(is_word(r), Refusal::WordTooLarge)?;
    Ok(unshift_bit(Register::new(r)))
}

#[tactic(auto, using(crate::proofs::Shifting::halves))]
fn unshift_bit(r: Register) -> u32
    ensures { result ≡ backward r.word }
{
    let half = r.word / 2;
    if r.word % 2 == 1 {
        half ^ HALF_GENERATOR
    } else {
        half
    }
}
