// Where a piece of a text ends, and what stands behind it: a byte such as the space parts the pieces.
ghost use Rattle.std.specs.Prelude.{◌+◌, ◌≡◌, ◌<◌, ◌==◌, length, drop, MatchOption};
ghost use Rattle.std.specs.List.{position};
ghost use Rattle.reading.specs.Lines.{before, behind};

// What stands behind the byte at `end`: nothing where there is no such byte. For a caller who takes a text apart by places.
pub fn after(s: &[u8], end: usize) -> &[u8]
    ensures { result.now ≡ drop (end + 1) s.now }
{
    s.get(end.saturating_add(1)..).unwrap_or_default()
}

// The three functions below take a text and a byte, which are no thing of their own: a struct would be made for each call.

// The bytes in front of the first b, or all where there is none, and what stands behind it.
pub fn cut(s: &[u8], b: u8) -> (&[u8], &[u8])
    ensures first { result.0.now ≡ before b s.now }
    ensures others { result.1.now ≡ behind b s.now }
{
    split_once(s, b).unwrap_or((s, &[]))
}

// The same where there is a b.
#[tactic(auto, using(crate::proofs::Searching::pieces, std::proofs::lemmas::Grind::common_steps))]
pub fn split_once(s: &[u8], b: u8) -> Option<(&[u8], &[u8])>
    ensures { MatchOption result (before b s.now ≡ s.now) (λ p. (p.0.now ≡ before b s.now) × (p.1.now ≡ behind b s.now) × (length p.0.now < length s.now)) }
{
    let end = place_of(s, b)?;
    Some((&s[..end], &s[end + 1..]))
}

// Where the first b stands: a function of its own, since the check does not find that within `split_once`.
fn place_of(s: &[u8], b: u8) -> Option<usize>
    ensures { result ≡ position (λ x. x == b) s.now }
{
    s.iter().position(|&x| x == b)
}
