// A lent buffer that bytes are appended to, and numbers as digits.
ghost use Rattle.std.specs.Prelude.{◌≡◌, [], ◌∷◌, ◌<◌, take};
ghost use Rattle.text.specs.Digits.{digit_of, hex_text, word_text, decimal_text, signed_text};
ghost use Rattle.text.specs.Output.{Appends, place};

// The buffer and the count of what is taken of it, in one struct. The fields take any values: where more bytes are said to be taken
// than there are, the buffer is full.
#[derive(Debug, Drop)]
pub struct Output<'a> {
    pub buffer: &'a mut [u8],
    pub taken: usize,
}

impl<'a> Output<'a> {
    // No byte is taken yet.
    pub fn new(buffer: &'a mut [u8]) -> Output<'a>
        ensures same_buffer { result.buffer.ghost_name ≡ buffer.entry.ghost_name }
        ensures none_taken { place result ≡ (buffer.old, 0) }
    {
        Output { buffer, taken: 0 }
    }

    // The bytes that are taken, at most all that there are.
    pub fn bytes(&self) -> &[u8]
        ensures { result.now ≡ take self.now.taken self.now.buffer.now }
    {
        &self.buffer[..self.taken.min(self.buffer.len())]
    }

    // A full buffer stays as it is.
    #[tactic(auto, unfolding(crate::specs::Output::append, crate::specs::Output::append_byte))]
    pub fn put_byte(&mut self, b: u8)
        ensures { Appends self.old self.new (b ∷ []) }
    {
        if self.taken < self.buffer.len() {
            self.buffer[self.taken] = b;
            self.taken += 1;
        }
    }

    // As many of the bytes as there is room for. Where there is room for all they are copied at once: byte by byte, with buffer and
    // count fetched and stored for each, a line of fixed words takes half as long again. Where there is not they go one by one, which is
    // proved by the law of one byte alone.
    #[tactic(auto, using(crate::proofs::Appending::appending, crate::proofs::Appending::copied, std::proofs::lemmas::Grind::common_steps))]
    pub fn put_bytes(&mut self, s: &[u8])
        ensures { Appends self.old self.new s.now }
    {
        if self.taken <= self.buffer.len() && s.len() <= self.buffer.len() - self.taken {
            let end = self.taken + s.len();
            self.buffer[self.taken..end].copy_from_slice(s);
            self.taken = end;
        } else {
            for &b in s {
                self.put_byte(b);
            }
        }
    }

    // Two digits for each byte.
    #[tactic(auto, using(crate::proofs::Appending::appending, crate::proofs::Spelling::hex_appending, std::proofs::lemmas::Grind::common_steps), unfolding(crate::specs::Digits::hex_text))]
    pub fn put_hex(&mut self, s: &[u8])
        ensures { Appends self.old self.new (hex_text s.now) }
    {
        for &byte in s {
            self.put_byte(digit_of(byte / 16));
            self.put_byte(digit_of(byte % 16));
        }
    }

    // The six digits of a word of 24 bits.
    #[tactic(auto, unfolding(crate::specs::Digits::word_text))]
    pub fn put_word(&mut self, w: u32)
        ensures { Appends self.old self.new (word_text w) }
    {
        let [_, high, middle, low] = w.to_be_bytes();
        self.put_hex(&[high, middle, low]);
    }

    // Without leading zeros. A number has its digits but the last, if it has more than one, and then the last.
    #[tactic(auto, using(crate::proofs::Appending::appending, crate::proofs::Spelling::decimal_steps))]
    pub fn put_decimal(&mut self, n: u64)
        ensures { Appends self.old self.new (decimal_text n) }
    {
        if n >= 10 {
            self.put_decimal(n / 10);
        }
        // a remainder below ten, which a `u8::try_from` would only test again
        self.put_byte(digit_of((n % 10) as u8));
    }

    // With `-` in front of a negative number.
    #[tactic(auto, using(crate::proofs::Appending::appending, crate::proofs::Signs::signed_steps))]
    pub fn put_signed(&mut self, z: i32)
        ensures { Appends self.old self.new (signed_text z) }
    {
        if z < 0 {
            self.put_byte(b'-');
        }
        self.put_decimal(u64::from(z.unsigned_abs()));
    }
}

// The digit of a value below 16.
#[tactic(auto, unfolding(crate::specs::Digits::digit_of))]
fn digit_of(v: u8) -> u8
    requires { v < 16 }
    ensures { result ≡ digit_of v }
{
    if v < 10 { b'0' + v } else { b'A' + (v - 10) }
}
