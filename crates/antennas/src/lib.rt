// The two-antenna transponder: which of two received buffers is taken, and its field, as a part of the caller's buffer.
//
// Both calls go by one definition, `antenna_of`: the part is a map of the companion's answer. What they know of the transponder are
// its public functions and their contracts.
#![tactic(auto)]

ghost use Rattle.std.specs.Prelude.{◌≡◌};
ghost use Rattle.transponder.specs.Receptions.{reception_outcome};
ghost use Rattle.antennas.specs.Antennas.{field_of, is_taken, chosen_of, antenna_of, part_of};

use outcome::{Refusal, refuse_unless};
use transponder::Reception;

// The antenna whose buffer is taken. Other enums have two cases too, of another meaning.
#[derive(Clone, Copy, Debug, PartialEq, Eq)]
pub enum Antenna {
    Upper,
    Lower,
}

// The field of the buffer that is taken, as a part of it; else the empty part of the upper buffer. Each buffer and its level are two
// arguments, as the project's rules name the call.
pub fn taken_field<'a>(own: u32, upper: &'a [u8], p: u8, lower: &'a [u8], q: u8) -> &'a [u8]
    ensures { (result.ref_ptr, result.now) ≡ part_of (antenna_of own upper.now p lower.now q) (upper.entry.ref_ptr, upper.now) (lower.entry.ref_ptr, lower.now) }
{
    match taken_antenna(own, upper, p, lower, q) {
        Ok(Some(Antenna::Upper)) => field(upper),
        Ok(Some(Antenna::Lower)) => field(lower),
        Ok(None) | Err(_) => &upper[0..0],
    }
}

// Its companion: whose field that is, if one is taken.
#[tactic(auto, using(outcome::proofs::Laws::rows, crate::proofs::Choosing::levels), unfolding(crate::specs::Antennas::antenna_of))]
pub fn taken_antenna(
    own: u32,
    upper: &[u8],
    p: u8,
    lower: &[u8],
    q: u8,
) -> Result<Option<Antenna>, Refusal>
    ensures { result ≡ antenna_of own upper.now p lower.now q }
{
    refuse_unless(message::is_word(own), Refusal::WordTooLarge)?;
    refuse_unless(!transponder::is_reserved(own), Refusal::OwnAddressReserved)?;
    Ok(choose(
        is_taken(own, upper).then_some(p),
        is_taken(own, lower).then_some(q),
    ))
}

// The higher level of those taken, and of equal levels the upper; None is the level of a buffer that is not taken.
fn choose(upper: Option<u8>, lower: Option<u8>) -> Option<Antenna>
    ensures { result ≡ chosen_of upper lower }
{
    match (upper, lower) {
        (Some(p), Some(q)) if p < q => Some(Antenna::Lower),
        (Some(_), _) => Some(Antenna::Upper),
        (None, Some(_)) => Some(Antenna::Lower),
        (None, None) => None,
    }
}

// Whether the transponder accepts a buffer.
fn is_taken(own: u32, m: &[u8]) -> bool
    ensures { result ≡ is_taken (reception_outcome own m.now) }
{
    matches!(
        transponder::receive(own, m),
        Ok(Reception::Own | Reception::AllCall | Reception::Broadcast)
    )
}

// The field of a message, its bytes without the last three; of fewer bytes than three, no byte.
#[tactic(auto, using(message::proofs::Laws::field_is))]
fn field(m: &[u8]) -> &[u8]
    ensures { (result.ref_ptr, result.now) ≡ field_of (m.entry.ref_ptr, m.now) }
{
    &m[..m.len().saturating_sub(3)]
}
