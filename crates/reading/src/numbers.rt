// The numbers that digits write.
ghost use Rattle.std.specs.Prelude.{◌≡◌, ◌%◌, ◌^◌};
ghost use Rattle.reading.specs.Digits.{number_after, hex_number, decimal_number};

use crate::digits::digit_value;

// Two public functions of one line each: one with the base as its parameter would be no shorter where it is called, and could
// not promise each number by a definition of its own.

// The number of a text of hexadecimal digits, its low 32 bits: the whole number where there are at most 8 digits.
#[tactic(auto, unfolding(crate::specs::Digits::hex_number))]
pub fn hex_number(s: &[u8]) -> u32
    ensures { result ≡ hex_number s.now % 2 ^ 32 }
{
    number_in(s, 16)
}

// The same of decimal digits: the whole number where there are at most 9.
#[tactic(auto, unfolding(crate::specs::Digits::decimal_number))]
pub fn decimal_number(s: &[u8]) -> u32
    ensures { result ≡ decimal_number s.now % 2 ^ 32 }
{
    number_in(s, 10)
}

#[tactic(auto, using(crate::proofs::Values::number_folded))]
fn number_in(s: &[u8], base: u32) -> u32
    ensures { result ≡ number_after base 0 s.now % 2 ^ 32 }
{
    s.iter().fold(0u32, |value, &digit| {
        value
            .wrapping_mul(base)
            .wrapping_add(u32::from(digit_value(digit)))
    })
}
