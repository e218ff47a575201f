// The remainder of one message, or R of one field, by folding: no table is read.
//
// (x + 1)·G has eight terms only, so x^25 has the remainder of seven low powers of x, and x^50 that of their squares. What
// stands above x^25 or x^50 is multiplied by these, by a few shifts, and added to what stands below: the remainder stays, and
// the degree falls, from 111 to 59, 49, 36 and 24.
ghost use Rattle.std.specs.Prelude.{◌<◌, ◌+◌, ◌*◌, ◌^◌, ◌≡◌, true, length, Ok};
ghost use Rattle.message.specs.Message.{number, is_field_length};
ghost use Rattle.division.specs.Division.{remainder, parity};
ghost use Rattle.division.specs.Polynomial.{product};
ghost use Rattle.division.specs.Folds.{folded, powers, IsStep};
ghost use Rattle.division.specs.Answers.{said, parity_answer};

use crate::register::reduced;
use crate::words::number_of;
use message::is_field_length;
use outcome::{Refusal, refuse_unless};

// Times the seven powers that x^25 stands for, and at K = 2 times their squares, which x^50 stands for.
#[tactic(auto, using(crate::proofs::Folds::times_powers))]
fn by_powers<const K: u32>(a: u64) -> u64
    requires a_bound { a < 2 ^ 40 }
    requires k_bound { IsStep K }
    ensures { result ≡ product a (powers K) }
{
    let two = a ^ (a << K);
    let three = two ^ (a << (2 * K));
    let lower = two ^ (two << (3 * K));
    lower ^ (three << (10 * K))
}

// What v has above x^(25·K) is folded onto what it has below.
#[tactic(auto, unfolding(crate::specs::Folds::folded))]
fn fold<const K: u32>(v: u64) -> u64
    requires { IsStep K }
    ensures { result ≡ folded (25 * K) (powers K) v }
{
    let above = v >> (25 * K);
    (v % (1 << (25 * K))) ^ by_powers::<K>(above)
}

// The remainder of 64 coefficients.
#[tactic(auto, using(crate::proofs::Folds::word_steps))]
pub(crate) fn remainder_of_word(v: u64) -> u32
    ensures { result ≡ remainder v }
{
    let first = fold::<2>(v);
    let second = fold::<1>(first);
    let third = fold::<1>(second);
    // Below 2^25: Rust has no From to a narrower type, and a try_from would only test it again.
    reduced(third as u32)
}

// The remainder of 112 coefficients, the lower 48 apart. Those above x^75 are folded to x^25 and above, and of these, those above
// x^50 are folded together with what stood there.
#[tactic(auto, using(crate::proofs::Folds::words_are))]
pub(crate) fn remainder_of_words(upper: u64, lower: u64) -> u32
    requires { lower < 2 ^ 48 }
    ensures { result ≡ remainder (upper * 2 ^ 48 + lower) }
{
    let above_75 = upper / 0x8000000;
    let above_50 = upper / 4 % 0x2000000;
    let below_50 = upper % 4 * 0x1000000000000 + lower;
    let above_25 = by_powers::<2>(above_75);
    let joined = above_50 ^ (above_25 / 0x2000000);
    let moved = above_25 % 0x2000000 * 0x2000000;
    remainder_of_word((below_50 ^ moved) ^ by_powers::<2>(joined))
}

// R of a field of 4 bytes, and of one of 11.
#[tactic(auto, using(crate::proofs::Numbers::parts), unfolding(crate::specs::Division::parity))]
fn short_parity(field: &[u8]) -> u32
    requires { length field.now ≡ 4 }
    ensures { result ≡ parity (number field.now) }
{
    remainder_of_word(number_of(field) * 0x1000000)
}

// Beside long_remainder: of another length, and with the zeros of the parity field after it.
#[tactic(auto, using(crate::proofs::Numbers::parts), unfolding(crate::specs::Division::parity))]
fn long_parity(field: &[u8]) -> u32
    requires { length field.now ≡ 11 }
    ensures { result ≡ parity (number field.now) }
{
    let upper = &field[..8];
    let last = &field[8..11];
    remainder_of_words(number_of(upper), number_of(last) * 0x1000000)
}

#[tactic(auto, using(message::proofs::Laws::long_field))]
fn folded_parity(field: &[u8]) -> u32
    requires { is_field_length (length field.now) ≡ true }
    ensures { result ≡ parity (number field.now) }
{
    if field.len() == 4 {
        short_parity(field)
    } else {
        long_parity(field)
    }
}

// R of a field, by folding: the fastest way for one field. The second promise follows from the first: with it a caller unwraps.
// Two lines, as parity_by_register, which says why they are written out.
#[tactic(auto, using(outcome::proofs::Laws::rows), unfolding(crate::specs::Answers::parity_answer))]
pub fn parity_by_folding(field: &[u8]) -> Result<u32, Refusal>
    ensures value { said result ≡ parity_answer field.now }
    ensures ok { is_field_length (length field.now) ≡ true → result ≡ Ok (parity (number field.now)) }
{
    refuse_unless(is_field_length(field.len()), Refusal::WrongLength)?;
    Ok(folded_parity(field))
}
