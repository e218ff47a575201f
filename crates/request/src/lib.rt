// What a line for sift is: four columns, and a well-formed one by the length and the digits of each (document 01, 'The
// program sift').
//
// Both functions take any bytes; their contracts give the result by definitions of specs/.
#![tactic(auto)]

ghost use Rattle.std.specs.Prelude.{◌≡◌, ◌<◌, ◌∷◌, length, MatchOption};
ghost use Rattle.reading.specs.Lines.{columns};
ghost use Rattle.request.specs.Requests.{well_formed, is_bytes_column, is_word_column, is_limit_column};

use reading::split_once;

// The columns of a line. They may hold any bytes.
#[derive(Clone, Copy, Debug)]
pub struct Request<'a> {
    pub message: &'a [u8],
    pub confidence: &'a [u8],
    pub word: &'a [u8],
    pub limit: &'a [u8],
}

impl<'a> Request<'a> {
    // The columns are 'parted by one space': the next starts right behind it. What stands behind the third space is taken
    // for the limit, also where it has a space in it.
    #[tactic(auto, using(reading::proofs::Laws::column_steps))]
    pub fn of(line: &'a [u8]) -> Option<Request<'a>>
        ensures { MatchOption result (length (columns line.now) < 4) (λ r. columns line.now ≡ r.message.now ∷ r.confidence.now ∷ r.word.now ∷ columns r.limit.now) }
    {
        let (message, others) = split_once(line, b' ')?;
        let (confidence, others) = split_once(others, b' ')?;
        let (word, limit) = split_once(others, b' ')?;
        Some(Request {
            message,
            confidence,
            word,
            limit,
        })
    }

    #[tactic(auto, unfolding(crate::specs::Requests::well_formed))]
    pub fn is_well_formed(&self) -> bool
        ensures { result ≡ well_formed self.now.message.now self.now.confidence.now self.now.word.now self.now.limit.now }
    {
        is_bytes_column(self.message)
            && is_bytes_column(self.confidence)
            && is_word_column(self.word)
            && is_limit_column(self.limit)
    }
}

// 2 to 28 capital hexadecimal digits, an even number.
#[tactic(auto, unfolding(crate::specs::Requests::is_bytes_column))]
fn is_bytes_column(s: &[u8]) -> bool
    ensures { result ≡ is_bytes_column s.now }
{
    matches!(s.len(), 2..=28) && s.len() % 2 == 0 && reading::all_hex(s)
}

// 6 such digits.
#[tactic(auto, unfolding(crate::specs::Requests::is_word_column))]
fn is_word_column(s: &[u8]) -> bool
    ensures { result ≡ is_word_column s.now }
{
    s.len() == 6 && reading::all_hex(s)
}

// 1 or 2 decimal digits.
#[tactic(auto, unfolding(crate::specs::Requests::is_limit_column))]
fn is_limit_column(s: &[u8]) -> bool
    ensures { result ≡ is_limit_column s.now }
{
    matches!(s.len(), 1..=2) && reading::all_decimal(s)
}
