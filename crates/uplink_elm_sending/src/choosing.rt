// Which segments a round transmits: the numbers that are not acknowledged, one after the other, by value.
ghost use Rattle.std.specs.Prelude.{◌<◌, ◌≤◌, ◌≡◌, length, IfSome};
ghost use Rattle.uplink_elm.specs.Segments.{is_held};
ghost use Rattle.uplink_elm_sending.specs.Sending.{round_numbers};
ghost use Rattle.uplink_elm_sending.specs.Choosing.{lowest_from, next_from};

// The segments of a message, which are so many, less those that are acknowledged.
#[derive(Clone, Copy)]
pub(crate) struct Unacknowledged {
    pub(crate) acknowledgement: u16,
    pub(crate) count: u8,
}

impl Unacknowledged {
    // The number of transmissions of a round of s: none where all segments are acknowledged.
    #[tactic(auto, using(crate::proofs::Numbers::choosing))]
    pub(crate) fn round_length(self, s: usize) -> usize
        ensures { result ≡ length (round_numbers self.acknowledgement self.count s) }
    {
        self.lowest_from(0).map_or(0, |_| s)
    }

    // The next number, from this one on, starting over at 0.
    #[tactic(auto, unfolding(crate::specs::Choosing::next_from))]
    pub(crate) fn next_from(self, from: u8) -> Option<u8>
        requires { from ≤ self.count }
        ensures value { result ≡ next_from (is_held self.acknowledgement) self.count from }
        ensures below { IfSome result (λ n. n < self.count) }
    {
        self.lowest_from(from).or_else(|| self.lowest_from(0))
    }

    // The lowest number from this one on. A loop, since of `(from..self.count).find(..)` the check does not find what the closure
    // answers at each number.
    #[tactic(auto, using(crate::proofs::Numbers::looking))]
    fn lowest_from(self, from: u8) -> Option<u8>
        requires { from ≤ self.count }
        ensures value { result ≡ lowest_from (is_held self.acknowledgement) self.count from }
        ensures below { IfSome result (λ n. n < self.count) }
    {
        for n in from..self.count {
            if !uplink_elm::is_held(self.acknowledgement, n) {
                return Some(n);
            }
        }
        None
    }
}
