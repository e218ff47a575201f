// The search for fits, from the last window to the first.
//
// The window at place e needs the syndrome divided by x e times. The search keeps the fit of the lowest window so far, and
// whether all fits so far invert the same message bits.
ghost use Rattle.std.specs.Prelude.{◌<◌, ◌≤◌, ◌*◌, ◌^◌, suc, ◌≡◌, eqb, IfSome};
ghost use Rattle.message.specs.Message.{first_bit_agrees};
ghost use Rattle.message.specs.Bits.{last_window, inverted};
ghost use Rattle.sensor.specs.Verdicts.{passes};
ghost use Rattle.sensor.specs.Searching.{mark_after, fit_to};

use crate::Mark;
use crate::reply::Reply;

// A fit: its place, its pattern, and whether all fits so far invert the same message bits.
#[derive(Clone, Copy)]
pub(crate) struct Fit {
    pub mark: Mark,
    pub place: usize,
    pub pattern: u32,
}

impl Fit {
    // Whether a pattern at a place is the same message bits. A shift by less than 96 loses none of 32 bits. Pattern and place are no
    // struct before they are a fit: the search goes from place to place, and the pattern changes with each.
    #[tactic(auto, using(crate::proofs::Bits::shifted_whole))]
    fn inverts(self, pattern: u32, place: usize) -> bool
        requires places { (self.place < 96) × (place < 96) }
        ensures { result ≡ eqb (self.pattern * 2 ^ self.place) (pattern * 2 ^ place) }
    {
        u128::from(self.pattern) << self.place == u128::from(pattern) << place
    }
}

// The mark of a fit, by the fit before it: the first, the same message bits again, or others.
fn mark_after(before: Option<Fit>, pattern: u32, place: usize) -> Mark
    requires before_bound { IfSome before (λ fit. fit.place < 96) }
    requires place_bound { place < 96 }
    ensures { result ≡ mark_after before pattern place }
{
    match before {
        Some(fit) if !fit.inverts(pattern, place) => Mark::Several,
        Some(fit) => fit.mark,
        None => Mark::Sole,
    }
}

impl Reply<'_> {
    // The fit of the lowest window that has one, of a syndrome that is not zero.
    #[tactic(auto, using(crate::proofs::Fits::searching))]
    pub(crate) fn lowest_fit(&self, syndrome: u32) -> Option<Fit>
        requires { syndrome < 2 ^ 24 }
        ensures { result ≡ fit_to (passes self.now.message.now self.now.marks.now) syndrome (suc (last_window self.now.marks.now)) }
    {
        let mut fit: Option<Fit> = None;
        let mut pattern = syndrome;
        for place in 0..self.last_window() + 1 {
            if self.passes_at(place, pattern) {
                fit = Some(Fit {
                    mark: mark_after(fit, pattern, place),
                    place,
                    pattern,
                });
            }
            pattern = division::register_back(pattern).unwrap();
        }
        fit
    }

    // The test of a pattern at a place. Few have their ones on low marks alone; only these are asked for the first bit.
    #[tactic(auto, using(crate::proofs::Marks::fits_lt), unfolding(crate::specs::Verdicts::passes))]
    fn passes_at(&self, place: usize, pattern: u32) -> bool
        requires { place ≤ last_window self.now.marks.now }
        ensures { result ≡ passes self.now.message.now self.now.marks.now place pattern }
    {
        let (part, offset) = self.part_at(place);
        windows::fits(part, offset, pattern) && self.leaves_first_bit(place, pattern)
    }

    // Whether the message with the pattern added at the place has a first bit that agrees with its length. The first bit is the
    // top bit of window 0.
    #[tactic(auto, using(crate::proofs::FirstBit::first_bits))]
    fn leaves_first_bit(&self, place: usize, pattern: u32) -> bool
        requires place_bound { place ≤ last_window self.now.marks.now }
        requires pattern_bound { pattern < 2 ^ 24 }
        ensures { result ≡ first_bit_agrees (inverted self.now.message.now (pattern * 2 ^ place)) }
    {
        let agrees = message::first_bit_agrees(self.message);
        if place == self.last_window() && 0x800000 <= pattern {
            !agrees
        } else {
            agrees
        }
    }
}
