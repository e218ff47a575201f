// The lines of a text, one after the other.
ghost use Rattle.std.specs.Prelude.{◌≡◌, ◌≤◌, ◌+◌, length};
ghost use Rattle.std.specs.Iterator.{YieldsFirstBy, item_count};
ghost use Rattle.reading.specs.Lines.{lines};

use crate::pieces::cut;

// The lines of what is left of a text.
#[derive(Clone, Debug, Drop)]
pub struct Lines<'a> {
    pub rest: &'a [u8],
}

impl<'a> Lines<'a> {
    // The second promise holds of every text: with it a caller counts the lines without a proof.
    #[tactic(auto, using(crate::proofs::Splitting::few_lines))]
    pub fn new(text: &'a [u8]) -> Lines<'a>
        ensures whole { result.rest.now ≡ text.now }
        ensures count_bound { length (lines text.now) ≤ length text.now + 1 }
    {
        Lines { rest: text }
    }
}

impl<'a> Iterator for Lines<'a> {
    type Item = &'a [u8];

    ghost next_gives = { YieldsFirstBy (λ line. line.now) (λ s. lines s.rest.now) };

    ghost remaining = { item_count (λ s. lines s.rest.now) };

    #[tactic(auto, using(crate::proofs::Splitting::line_steps))]
    fn next(&mut self) -> Option<&'a [u8]> {
        if self.rest.is_empty() {
            return None;
        }
        let (line, rest) = cut(self.rest, b'\n');
        self.rest = rest;
        Some(line)
    }
}
