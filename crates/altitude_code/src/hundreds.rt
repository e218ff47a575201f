// The 100-foot code, read: the number of its Gray code, and the place of its C1 C2 C4 in the list of five.
ghost use Rattle.std.specs.Prelude.{◌<◌, ◌≡◌, MatchOption};
ghost use Rattle.altitude_code.specs.Gray.{gray_number};
ghost use Rattle.altitude_code.specs.Codes.{gray_bits, c_bits, c_patterns, in_order};
ghost use Rattle.altitude_code.specs.Altitudes.{place_in, decoded_by_100};

use crate::{Decoded, bits, feet};

// What a code with M = 0 and Q = 0 means that is not all zeros.
#[tactic(auto, using(crate::proofs::Decoding::decoding), unfolding(crate::specs::Altitudes::decoded_by_100))]
pub(crate) fn decode(code: u32) -> Decoded
    ensures { result ≡ decoded_by_100 (gray_number 8 (gray_bits code)) (place_in (c_bits code) c_patterns) }
{
    let g = gray_number(bits::gray_bits(code));
    c_place(bits::c_bits(code)).map_or(Decoded::Illegal, |place| {
        Decoded::Feet(feet(500 * g + 100 * in_order(g, place)))
    })
}

// The number whose Gray code this is: each bit is the sum of the bits from the top down to it, without carries.
#[tactic(auto, using(crate::proofs::Gray::by_sums))]
fn gray_number(v: u32) -> u32
    requires { v < 256 }
    ensures value { result ≡ gray_number 8 v }
    ensures bound { result < 256 }
{
    let four = v ^ (v / 16);
    let two = four ^ (four / 4);
    two ^ (two / 2)
}

// The place of C1 C2 C4 in 001, 011, 010, 110, 100, or None where it is none of them.
#[tactic(auto, unfolding(crate::specs::Altitudes::place_in))]
fn c_place(c: u32) -> Option<u32>
    ensures { MatchOption result (5 ≡ place_in c c_patterns) (λ place. (place ≡ place_in c c_patterns) × (place < 5)) }
{
    match c {
        1 => Some(0),
        3 => Some(1),
        2 => Some(2),
        6 => Some(3),
        4 => Some(4),
        _ => None,
    }
}

// The place counted from the other end where g is odd.
#[tactic(auto, unfolding(crate::specs::Codes::in_order))]
fn in_order(g: u32, place: u32) -> u32
    requires { place < 5 }
    ensures value { result ≡ in_order g place }
    ensures bound { result < 5 }
{
    if g % 2 == 0 { place } else { 4 - place }
}
