// Digits: tests, and the values of digits.
ghost use Rattle.std.specs.Prelude.{◌≡◌, ◌<◌};
ghost use Rattle.reading.specs.Digits.{is_decimal_digit, is_hex_digit, digit_value, all};

// Capital letters alone.
#[tactic(auto, unfolding(crate::specs::Digits::is_hex_digit, crate::specs::Digits::is_decimal_digit))]
pub(crate) fn is_hex_digit(b: u8) -> bool
    ensures { result ≡ is_hex_digit b }
{
    b.is_ascii_digit() | matches!(b, b'A'..=b'F')
}

// The value of each byte as a digit, and 0 for a byte that is none.
static VALUES: [u8; 256] = [
    0, 0, 0, 0, 0, 0, 0, 0, 0, 0, 0, 0, 0, 0, 0, 0, 0, 0, 0, 0, 0, 0, 0, 0, 0, 0, 0, 0, 0, 0, 0, 0,
    0, 0, 0, 0, 0, 0, 0, 0, 0, 0, 0, 0, 0, 0, 0, 0, 0, 1, 2, 3, 4, 5, 6, 7, 8, 9, 0, 0, 0, 0, 0, 0,
    0, 10, 11, 12, 13, 14, 15, 0, 0, 0, 0, 0, 0, 0, 0, 0, 0, 0, 0, 0, 0, 0, 0, 0, 0, 0, 0, 0, 0, 0,
    0, 0, 0, 0, 0, 0, 0, 0, 0, 0, 0, 0, 0, 0, 0, 0, 0, 0, 0, 0, 0, 0, 0, 0, 0, 0, 0, 0, 0, 0, 0, 0,
    0, 0, 0, 0, 0, 0, 0, 0, 0, 0, 0, 0, 0, 0, 0, 0, 0, 0, 0, 0, 0, 0, 0, 0, 0, 0, 0, 0, 0, 0, 0, 0,
    0, 0, 0, 0, 0, 0, 0, 0, 0, 0, 0, 0, 0, 0, 0, 0, 0, 0, 0, 0, 0, 0, 0, 0, 0, 0, 0, 0, 0, 0, 0, 0,
    0, 0, 0, 0, 0, 0, 0, 0, 0, 0, 0, 0, 0, 0, 0, 0, 0, 0, 0, 0, 0, 0, 0, 0, 0, 0, 0, 0, 0, 0, 0, 0,
    0, 0, 0, 0, 0, 0, 0, 0, 0, 0, 0, 0, 0, 0, 0, 0, 0, 0, 0, 0, 0, 0, 0, 0, 0, 0, 0, 0, 0, 0, 0, 0,
    0, 0,
];

// A match on the two ranges is a branch that goes either way at every other digit, and arithmetic on the byte takes three
// times the instructions of the table.
pub(crate) fn digit_value(b: u8) -> u8
    ensures value { result ≡ digit_value b }
    ensures upper_bound { result < 16 }
{
    VALUES[usize::from(b)]
}

// Whether every byte is a decimal digit, which is true of none.
//
// A fold goes through to the end, so that the compiler tests many bytes at a time, where `all` would end at the first
// byte that fails.
pub fn all_decimal(s: &[u8]) -> bool
    ensures { result ≡ all is_decimal_digit s.now }
{
    s.iter().fold(true, |all, b| all & b.is_ascii_digit())
}

// Whether every byte is a hexadecimal digit, which is true of none.
pub fn all_hex(s: &[u8]) -> bool
    ensures { result ≡ all is_hex_digit s.now }
{
    s.iter().fold(true, |all, &b| all & is_hex_digit(b))
}
