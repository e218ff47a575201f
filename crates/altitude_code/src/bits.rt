// The bits of an altitude code, gathered into the numbers that they are read as.
//
// A code has C1 on top: C1 A1 C2 A2 C4 A4 M B1 Q B2 D2 B4 D4.
ghost use Rattle.std.specs.Prelude.{◌<◌, ◌≤◌, ◌≡◌, ◌^◌, map, length, All};
ghost use Rattle.altitude_code.specs.Codes.{binary, digit, eleven_bits, gray_bits, c_bits};
ghost use Rattle.altitude_code.specs.Altitudes.{code_by_25};

// The places of the bits, from 0 for the lowest.
const C1: u32 = 12;

const A1: u32 = 11;

const C2: u32 = 10;

const A2: u32 = 9;

const C4: u32 = 8;

const A4: u32 = 7;

pub(crate) const M: u32 = 6;

const B1: u32 = 5;

pub(crate) const Q: u32 = 4;

const B2: u32 = 3;

const D2: u32 = 2;

const B4: u32 = 1;

const D4: u32 = 0;

// The bit at a place.
#[tactic(auto, unfolding(crate::specs::Codes::digit))]
pub(crate) fn bit(code: u32, place: u32) -> u32
    requires { place < 32 }
    ensures { result ≡ digit code place }
{
    (code >> place) % 2
}

// The bits at these places as one number, the first on top.
#[tactic(auto, using(crate::proofs::Digits::gathering), unfolding(crate::specs::Codes::binary))]
fn gathered(code: u32, places: &[u32]) -> u32
    requires few { length places.now ≤ 31 }
    requires within { All (λ place. place < 32) places.now }
    ensures value { result ≡ binary (map (digit code) places.now) }
    ensures bound { result < 2 ^ length places.now }
{
    let mut number = 0;
    for &place in places {
        number = number * 2 + bit(code, place);
    }
    number
}

// All but M and Q, in order.
#[tactic(auto, unfolding(crate::specs::Codes::eleven_bits))]
pub(crate) fn eleven_bits(code: u32) -> u32
    ensures value { result ≡ eleven_bits code }
    ensures bound { result < 2048 }
{
    gathered(code, &[C1, A1, C2, A2, C4, A4, B1, B2, D2, B4, D4])
}

// The code with these eleven bits, M = 0 and Q = 1: in three pieces, which M and Q part, where bit by bit would be eleven.
#[tactic(auto, using(crate::proofs::Digits::by_digits))]
pub(crate) fn with_eleven_bits(n: u32) -> u32
    requires { n < 2048 }
    ensures { result ≡ code_by_25 n }
{
    let upper = n / 32;
    let b1 = n / 16 % 2;
    let lower = n % 16;
    upper * 128 + b1 * 32 + 16 + lower
}

// D2 D4 A1 A2 A4 B1 B2 B4.
#[tactic(auto, unfolding(crate::specs::Codes::gray_bits))]
pub(crate) fn gray_bits(code: u32) -> u32
    ensures value { result ≡ gray_bits code }
    ensures bound { result < 256 }
{
    gathered(code, &[D2, D4, A1, A2, A4, B1, B2, B4])
}

// C1 C2 C4.
#[tactic(auto, unfolding(crate::specs::Codes::c_bits))]
pub(crate) fn c_bits(code: u32) -> u32
    ensures value { result ≡ c_bits code }
    ensures bound { result < 8 }
{
    gathered(code, &[C1, C2, C4])
}
