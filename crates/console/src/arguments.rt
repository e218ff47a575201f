// The forms of the arguments, and what they write.
ghost use Rattle.std.specs.Prelude.{◌≡◌, ◌≤◌, ◌↔◌, false, length, IsNone, IfNone, IfSome};
ghost use Rattle.text.specs.Output.{append};
ghost use Rattle.reading.specs.Digits.{hex_bytes};
ghost use Rattle.console.specs.Arguments.{word_of, number_of, bit_of, is_byte_text, is_bytes};

// A number of 32 bits, so that one above FFFFFF can be refused.
pub fn word(s: &[u8]) -> Option<u32>
    ensures { result ≡ word_of s.now }
{
    let is_word = !s.is_empty() && s.len() <= 8 && reading::all_hex(s);
    is_word.then(|| reading::hex_number(s))
}

// A number of at most so many decimal digits, nine of which fit 32 bits.
pub fn number(s: &[u8], most: usize) -> Option<u32>
    ensures { result ≡ number_of most s.now }
{
    let is_number = !s.is_empty() && s.len() <= most && reading::all_decimal(s);
    is_number.then(|| reading::decimal_number(s))
}

// A bit is 0 or 1.
pub fn bit(s: &[u8]) -> Option<bool>
    ensures { result ≡ bit_of s.now }
{
    match s {
        b"0" => Some(false),
        b"1" => Some(true),
        _ => None,
    }
}

// The bytes go to the start of the buffer, if it has room for them; the answer is their number. The buffer is lent, as
// `reading::hex_bytes` takes it: an `ArrayVec` would have to be filled byte by byte from one.
pub fn bytes(s: &[u8], buffer: &mut [u8]) -> Option<usize>
    ensures refused { IsNone result ↔ (is_bytes (length buffer.old) s.now ≡ false) }
    ensures unchanged { IfNone result (buffer.new ≡ buffer.old) }
    ensures written { IfSome result (λ n. (buffer.new, n) ≡ append (buffer.old, 0) (hex_bytes s.now)) }
    ensures in_bounds { IfSome result (λ n. n ≤ length buffer.new) }
{
    // Not by `then`: of a closure that borrows the buffer the check does not find what it leaves there.
    if s.len() / 2 <= buffer.len() && is_byte_text(s) {
        Some(reading::hex_bytes(s, buffer))
    } else {
        None
    }
}

fn is_byte_text(s: &[u8]) -> bool
    ensures { result ≡ is_byte_text s.now }
{
    matches!(s, b"-") || (!s.is_empty() && s.len() % 2 == 0 && reading::all_hex(s))
}
