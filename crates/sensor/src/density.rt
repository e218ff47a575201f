// The search for the lowest window with too many low marks, from the first window on.
//
// Eight windows start in each byte, and the last window at a byte's first bit.
ghost use Rattle.std.specs.Prelude.{◌+◌, ◌-◌, ◌*◌, ◌≤◌, ◌<◌, suc, ◌≡◌, length};
ghost use Rattle.message.specs.Bits.{last_window};
ghost use Rattle.sensor.specs.Verdicts.{dense_at, highest};
ghost use Rattle.sensor.specs.Searching.{found_of, or_else};

use crate::reply::Reply;

impl Reply<'_> {
    // The highest place whose window has more low marks than the limit: eight windows at a time, from the first window on, and
    // then the last window.
    #[tactic(auto, using(crate::proofs::Fits::highest_last))]
    pub(crate) fn highest_dense(&self, limit: u32) -> Option<usize>
        ensures { found_of result ≡ highest (dense_at self.now.marks.now limit) (suc (last_window self.now.marks.now)) }
    {
        for at in 0..self.marks.len() - 3 {
            if let Some(place) = self.dense_in_byte(at, limit) {
                return Some(place);
            }
        }
        self.is_dense_at(0, limit).then_some(0)
    }

    // The eight windows that start in one byte. They lie in four bytes: where these have few low marks, no window is asked.
    #[tactic(auto, using(crate::proofs::Marks::none_dense, crate::proofs::Fits::going_down))]
    fn dense_in_byte(&self, at: usize, limit: u32) -> Option<usize>
        requires { at + 3 < length self.now.marks.now }
        ensures { or_else (found_of result) (highest (dense_at self.now.marks.now limit) (last_window self.now.marks.now - 8 * at - 7)) ≡ highest (dense_at self.now.marks.now limit) (last_window self.now.marks.now - 8 * at + 1) }
    {
        if windows::is_sparse(&self.marks[at..], limit) {
            return None;
        }
        let first = self.last_window() - 8 * at;
        for place in (first - 7..first + 1).rev() {
            if self.is_dense_at(place, limit) {
                return Some(place);
            }
        }
        None
    }

    // That a place is at most the last window's stands in five contracts: a type for it would have to hold the reply that it is a place
    // of, and be made at each turn of the two loops.
    #[tactic(auto, unfolding(crate::specs::Verdicts::dense_at))]
    fn is_dense_at(&self, place: usize, limit: u32) -> bool
        requires { place ≤ last_window self.now.marks.now }
        ensures { result ≡ dense_at self.now.marks.now limit place }
    {
        let (part, offset) = self.part_at(place);
        windows::is_dense(part, offset, limit)
    }
}
