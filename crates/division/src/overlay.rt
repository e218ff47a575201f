// The address overlay of an interrogation.
ghost use Rattle.std.specs.Prelude.{◌<◌, ◌^◌, ◌≡◌, Ok};
ghost use Rattle.division.specs.Division.{overlay};
ghost use Rattle.division.specs.Answers.{said, overlay_answer};

use message::is_word;
use outcome::{Refusal, refuse_unless};

// The coefficients x^47 to x^24 of A·G. The second promise follows from the first: with it a caller unwraps.
#[tactic(auto, using(outcome::proofs::Laws::rows, message::proofs::Laws::words), unfolding(crate::specs::Answers::overlay_answer))]
pub fn uplink_overlay(a: u32) -> Result<u32, Refusal>
    ensures value { said result ≡ overlay_answer a }
    ensures ok { a < 2 ^ 24 → result ≡ Ok (overlay a) }
{
    refuse_unless(is_word(a), Refusal::WordTooLarge)?;
    Ok(overlay_of(a))
}

// The upper half of the sum of A's shifts by the powers of G. Those by 24 down to 12, each one less, are summed by doubling how
// many there are. Here and in `address_of` 24 bits are a clause, and no `Register`: an address is none.
#[tactic(auto, using(crate::proofs::Shifts::overlay_by_shifts), unfolding(crate::proofs::Shifts::overlay_shifts, crate::proofs::Shifts::eight, crate::proofs::Shifts::four, crate::proofs::Shifts::two))]
fn overlay_of(a: u32) -> u32
    requires { a < 2 ^ 24 }
    ensures { result ≡ overlay a }
{
    let two = a ^ (a / 0x2);
    let four = two ^ (two / 0x4);
    let eight = four ^ (four / 0x10);
    let twelve = eight ^ (four / 0x100);
    let last = (a / 0x1000) ^ (a / 0x4000) ^ (a / 0x200000);
    twelve ^ last
}
