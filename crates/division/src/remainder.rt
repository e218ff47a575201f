// The remainder of a whole message, and the address that a transponder reads from it.
ghost use Rattle.std.specs.Prelude.{◌<◌, ◌^◌, ◌≡◌, true, length, Ok};
ghost use Rattle.division.specs.Division.{remainder, address_read};
ghost use Rattle.message.specs.Message.{number, is_message_length};
ghost use Rattle.division.specs.Answers.{said, remainder_answer, address_answer};

use crate::folding::{remainder_of_word, remainder_of_words};
use crate::words::number_of;
use message::is_message_length;
use outcome::{Refusal, refuse_unless};

// The remainder of a message. The second promise follows from the first: with it a caller unwraps. Two lines, as parity_by_register,
// which says why they are written out; these are for a message and its lengths.
#[tactic(auto, using(outcome::proofs::Laws::rows), unfolding(crate::specs::Answers::remainder_answer))]
pub fn message_remainder(m: &[u8]) -> Result<u32, Refusal>
    ensures value { said result ≡ remainder_answer m.now }
    ensures ok { is_message_length (length m.now) ≡ true → result ≡ Ok (remainder (number m.now)) }
{
    refuse_unless(is_message_length(m.len()), Refusal::WrongLength)?;
    Ok(remainder_of(m))
}

// The address read from a message; the second promise as above.
#[tactic(auto, using(outcome::proofs::Laws::rows, crate::proofs::Reading::by_remainder), unfolding(crate::specs::Answers::address_answer))]
pub fn address_read(m: &[u8]) -> Result<u32, Refusal>
    ensures value { said result ≡ address_answer m.now }
    ensures ok { is_message_length (length m.now) ≡ true → result ≡ Ok (address_read (number m.now)) }
{
    refuse_unless(is_message_length(m.len()), Refusal::WrongLength)?;
    Ok(address_of(remainder_of(m)))
}

// By folding: a short message is one word, a long one two.
#[tactic(auto, using(message::proofs::Laws::long_message))]
fn remainder_of(m: &[u8]) -> u32
    requires { is_message_length (length m.now) ≡ true }
    ensures { result ≡ remainder (number m.now) }
{
    if m.len() == 7 {
        remainder_of_word(number_of(m))
    } else {
        long_remainder(m)
    }
}

#[tactic(auto, using(crate::proofs::Numbers::parts))]
fn long_remainder(m: &[u8]) -> u32
    requires { length m.now ≡ 14 }
    ensures { result ≡ remainder (number m.now) }
{
    let upper = &m[..8];
    let lower = &m[8..14];
    remainder_of_words(number_of(upper), number_of(lower))
}

// The quotient of x^24·r: that of x^48 is x^24 + x^23 + x^11 + x^8 + x^3 + x + 1, so each coefficient of r gives its part by
// shifts.
#[tactic(auto, using(crate::proofs::Shifts::address_by_shifts), unfolding(crate::proofs::Shifts::address_shifts))]
fn address_of(r: u32) -> u32
    requires { r < 2 ^ 24 }
    ensures { result ≡ address_read r }
{
    let first = r ^ (r / 0x2);
    let second = (r / 0x2000) ^ (r / 0x10000);
    let third = (r / 0x200000) ^ (r / 0x800000);
    first ^ second ^ third
}
