// Which numbers are held: 16 bits, the top one for number 0.
ghost use Rattle.std.specs.Prelude.{suc, ◌≡◌};
ghost use Rattle.uplink_elm.specs.Segments.{is_held, all_below};

use crate::{Progress, Receiver};

impl Receiver {
    ghost use Rattle.uplink_elm.specs.Receiving.{is_whole, progress_of};

    pub(crate) fn progress(self) -> Progress
        ensures { result ≡ progress_of self }
    {
        Progress {
            acknowledgement: self.held,
            whole: self.is_whole(),
        }
    }

    #[tactic(auto, unfolding(crate::specs::Receiving::is_whole))]
    fn is_whole(self) -> bool
        ensures { result ≡ is_whole self }
    {
        self.opened && all_held(self.held, self.last)
    }
}

// All numbers up to the last. A loop, since of `(0..last).all(..)` the check does not find what the closure answers at each number.
#[tactic(auto, using(crate::proofs::Numbers::lacks), unfolding(crate::specs::Segments::all_below))]
fn all_held(held: u16, last: u8) -> bool
    ensures { result ≡ all_below (is_held held) (suc last) }
{
    for n in 0..last {
        if !is_held(held, n) {
            return false;
        }
    }
    is_held(held, last)
}

// Whether a number is held; one above 15 never is.
#[tactic(auto, unfolding(crate::specs::Segments::is_held))]
pub fn is_held(held: u16, number: u8) -> bool
    ensures { result ≡ is_held held number }
{
    number < 16 && (held >> (15 - number)) % 2 == 1
}
