// The correction: a pattern added to the message bits of its window.
ghost use Rattle.std.specs.Prelude.{◌<◌, ◌≤◌, ◌*◌, ◌^◌, ◌≡◌, length};
ghost use Rattle.message.specs.Bits.{last_window, inverted};

use crate::search::Fit;

impl Fit {
    // Adds the pattern to the window at its place.
    #[tactic(auto, using(crate::proofs::Bits::placed_back))]
    pub(crate) fn invert(self, m: &mut [u8])
        requires in_bounds { (3 ≤ length m.old) × (length m.old ≤ 14) }
        requires place_bound { self.place ≤ last_window m.old }
        requires pattern_bound { self.pattern < 2 ^ 24 }
        ensures { m.new ≡ inverted m.old (self.pattern * 2 ^ self.place) }
    {
        let start = 8 * m.len() - 24 - self.place;
        windows::invert_window(&mut m[start / 8..], start % 8, self.pattern);
    }
}
