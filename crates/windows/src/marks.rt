// The tests of a window, on the part of the confidence buffer.
ghost use Rattle.std.specs.Prelude.{◌-◌, ◌≤◌, ◌≡◌, eqb, leb, ltb, get_or};
ghost use Rattle.std.specs.Int.Bits.{bit_and};
ghost use Rattle.std.specs.Int.Count.{ones};
ghost use Rattle.windows.specs.Windows.{four_bytes, window_bits};

// The low marks of a window, as a number of 24 bits.
#[derive(Clone, Copy, Debug, PartialEq, Eq)]
pub struct Window {
    pub marks: u32,
}

impl Window {
    // The window that starts `offset` bits into the first byte of a part.
    #[tactic(auto, unfolding(crate::specs::Windows::window_bits))]
    pub fn within(part: &[u8], offset: usize) -> Window
        ensures { result.marks ≡ window_bits part.now offset }
    {
        Window {
            marks: (four_bytes(part) >> bits_after(offset)) % 0x1000000,
        }
    }

    // More low marks than the limit.
    pub fn is_dense(self, limit: u32) -> bool
        ensures { result ≡ ltb limit (ones self.marks) }
    {
        limit < self.marks.count_ones()
    }

    // Every one of the pattern is on a low mark.
    pub fn fits(self, pattern: u32) -> bool
        ensures { result ≡ eqb (bit_and pattern self.marks) pattern }
    {
        pattern & self.marks == pattern
    }
}

// The tests of a window, each handed the part of the confidence buffer from the byte of the window's first bit on. More low marks
// than the limit.
pub fn is_dense(part: &[u8], offset: usize, limit: u32) -> bool
    ensures { result ≡ ltb limit (ones (window_bits part.now offset)) }
{
    Window::within(part, offset).is_dense(limit)
}

// Every one of the pattern is on a low mark.
pub fn fits(part: &[u8], offset: usize, pattern: u32) -> bool
    ensures { result ≡ eqb (bit_and pattern (window_bits part.now offset)) pattern }
{
    Window::within(part, offset).fits(pattern)
}

// No more low marks than the limit in the four bytes: then none of the windows that start in the first byte is dense.
pub fn is_sparse(part: &[u8], limit: u32) -> bool
    ensures { result ≡ leb (ones (four_bytes part.now)) limit }
{
    four_bytes(part).count_ones() <= limit
}

// How many of the 32 bits are after the window.
pub(crate) fn bits_after(offset: usize) -> usize
    ensures value { result ≡ 8 - offset }
    ensures upper_bound { result ≤ 8 }
{
    8usize.saturating_sub(offset)
}

// Read at once where there are four: this is asked of every window.
pub(crate) fn four_bytes(part: &[u8]) -> u32
    ensures { result ≡ four_bytes part.now }
{
    match part.first_chunk::<4>() {
        Some(four) => u32::from_be_bytes(*four),
        None => u32::from_be_bytes([byte_at(part, 0), byte_at(part, 1), byte_at(part, 2), 0]),
    }
}

// A byte, or 0 past the end.
fn byte_at(part: &[u8], i: usize) -> u8
    ensures { result ≡ get_or part.now i 0 }
{
    part.get(i).copied().unwrap_or(0)
}
