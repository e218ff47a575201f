// What a message is before any division: its length, its first bit and its format number; and what a word of 24 bits is.
//
// Every function takes any input; its contract names a definition of specs/Message.antt.
#![tactic(auto)]

ghost use Rattle.std.specs.Prelude.{◌≡◌, get_or};
ghost use Rattle.message.specs.Message.{is_message_length, is_field_length, is_word, first_bit_agrees, format_number};

// A message has 7 or 14 bytes.
#[tactic(auto, unfolding(crate::specs::Message::is_message_length))]
pub fn is_message_length(n: usize) -> bool
    ensures { result ≡ is_message_length n }
{
    matches!(n, 7 | 14)
}

// A field, a message without its parity field, has 4 or 11. The two tests stay apart: with their numbers as parameters each caller
// would have to know them.
#[tactic(auto, unfolding(crate::specs::Message::is_field_length))]
pub fn is_field_length(n: usize) -> bool
    ensures { result ≡ is_field_length n }
{
    matches!(n, 4 | 11)
}

// A word has 24 bits.
#[tactic(auto, unfolding(crate::specs::Message::is_word))]
pub fn is_word(w: u32) -> bool
    ensures { result ≡ is_word w }
{
    w <= 0xFFFFFF
}

// Whether the first bit belongs to the length; of no bytes, that there is no 1.
#[tactic(auto, unfolding(crate::specs::Message::first_bit_agrees, crate::specs::Message::first_bit))]
pub fn first_bit_agrees(m: &[u8]) -> bool
    ensures { result ≡ first_bit_agrees m.now }
{
    let first = first_byte(m) / 128;
    if m.len() == 14 {
        first == 1
    } else {
        first == 0
    }
}

// The format number, bits 1 to 5; of no bytes, 0.
#[tactic(auto, unfolding(crate::specs::Message::format_number))]
pub fn format_number(m: &[u8]) -> u32
    ensures { result ≡ format_number m.now }
{
    first_byte(m) / 8
}

fn first_byte(m: &[u8]) -> u32
    ensures { result ≡ get_or m.now 0 0 }
{
    m.first().copied().map_or(0, u32::from)
}
