// A pattern added to the 24 bits of a window, on the part of the message.
ghost use Rattle.std.specs.Prelude.{◌-◌, ◌*◌, ◌%◌, ◌^◌, ◌≡◌};
ghost use Rattle.windows.specs.Windows.{stored, pattern_added};

use crate::marks::{bits_after, four_bytes};

// Adds a pattern to the window that starts `offset` bits into the part.
#[tactic(auto, unfolding(crate::specs::Windows::pattern_added))]
pub fn invert_window(part: &mut [u8], offset: usize, pattern: u32)
    ensures { part.new ≡ pattern_added part.old offset pattern }
{
    let sum = four_bytes(part) ^ aligned(pattern, offset);
    store_four(part, sum);
}

// The pattern as it stands in the four bytes; what is above them is dropped.
fn aligned(pattern: u32, offset: usize) -> u32
    ensures { result ≡ pattern * 2 ^ (8 - offset) % 2 ^ 32 }
{
    pattern << bits_after(offset)
}

// Stores the bytes of a number, as many as there is a place for.
fn store_four(part: &mut [u8], sum: u32)
    ensures { part.new ≡ stored part.old sum }
{
    let count = part.len().min(4);
    part[..count].copy_from_slice(&sum.to_be_bytes()[..count]);
}
