// A reply with its confidence marks, and its windows by their places: the last window is at place 0, the window before it at 1.
ghost use Rattle.std.specs.Prelude.{◌≤◌, ◌-◌, ◌≡◌, length};
ghost use Rattle.message.specs.Message.{Bytes};
ghost use Rattle.message.specs.Bits.{last_window};
ghost use Rattle.sensor.specs.Changes.{marks_at};
ghost use Rattle.windows.specs.Windows.{window_bits};

// The message and the marks: a bit 1 is a low mark.
#[derive(Clone, Copy)]
pub(crate) struct Reply<'a> {
    pub message: &'a [u8],
    pub marks: &'a [u8],
    ghost in_bounds: { (3 ≤ length marks.now) × (length marks.now ≤ 14) },
    ghost same_length: { length marks.now ≡ length message.now },
    ghost message_bytes: { Bytes message.now },
    ghost marks_bytes: { Bytes marks.now },
}

impl Reply<'_> {
    pub(crate) fn last_window(&self) -> usize
        ensures { result ≡ last_window self.now.marks.now }
    {
        8 * self.marks.len() - 24
    }

    // The number of the window at a place. It is cast: Rust has no From to a narrower type, and `u32::try_from` would only test it again.
    pub(crate) fn number_at(&self, place: usize) -> u32
        requires { place ≤ last_window self.now.marks.now }
        ensures { result ≡ last_window self.now.message.now - place }
    {
        (self.last_window() - place) as u32
    }

    // What the test of the window at a place is handed: the marks from the byte of its first bit on, and how far into that byte it
    // starts.
    #[tactic(auto, using(crate::proofs::Marks::marks_at_lem))]
    pub(crate) fn part_at(&self, place: usize) -> (&[u8], usize)
        requires { place ≤ last_window self.now.marks.now }
        ensures { window_bits result.0.now result.1 ≡ marks_at self.now.marks.now place }
    {
        let start = self.last_window() - place;
        (&self.marks[start / 8..], start % 8)
    }
}
