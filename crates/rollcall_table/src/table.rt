// A table as a call lends it, read: whether it is sound, and which place is free.
ghost use Rattle.std.specs.Prelude.{not, position, ◌≡◌, ◌≤◌, length, take};
ghost use Rattle.outcome.specs.Outcomes.{admission, done, unless};
ghost use Rattle.outcome.specs.Refusals.{table_unsound};
ghost use Rattle.rollcall_table.specs.Table.{in_order, is_sound, live_in, right_lengths};
ghost use Rattle.rollcall_table.specs.Checks.{verdict_of};

use crate::{LARGEST, Record};
use outcome::{Refusal, refuse_unless};

// The records, one per aircraft; the places that list the live ones; their count. It stands beside the slices because a call is given
// the count and answers the one after it.
#[derive(Clone, Copy)]
pub struct Table<'a> {
    pub records: &'a [Record],
    pub places: &'a [u16],
    pub count: usize,
}

// Row 8 of the refusals, what it says of the lengths.
pub fn check_lengths(records: usize, places: usize) -> Result<(), Refusal>
    ensures { admission result ≡ unless (right_lengths records places) table_unsound done }
{
    refuse_unless(are_right(records, places), Refusal::TableUnsound)
}

fn are_right(records: usize, places: usize) -> bool
    ensures { result ≡ right_lengths records places }
{
    records == places && 1 <= records && records <= LARGEST
}

impl Table<'_> {
    // Rows 3 and 8 of the refusals.
    pub fn check(&self, address: u32) -> Result<(), Refusal>
        ensures { admission result ≡ verdict_of (is_sound self.now.records.now self.now.places.now self.now.count) address }
    {
        refuse_unless(message::is_word(address), Refusal::WordTooLarge)?;
        refuse_unless(self.is_sound(), Refusal::TableUnsound)
    }

    // Whether the first places by the count list exactly the live records.
    #[tactic(auto, unfolding(crate::specs::Table::is_sound))]
    pub fn is_sound(&self) -> bool
        ensures { result ≡ is_sound self.now.records.now self.now.places.now self.now.count }
    {
        are_right(self.records.len(), self.places.len())
            && self.count <= self.records.len()
            && self.live_count() == self.count
            && self.is_in_order()
    }

    // The lowest place without a live record.
    pub fn free_place(&self) -> Option<usize>
        ensures { result ≡ position (λ r. not r.live) self.now.records.now }
    {
        self.records.iter().position(|r| !r.live)
    }

    // How many are live.
    #[tactic(auto, using(crate::proofs::Along::live_count))]
    fn live_count(&self) -> usize
        ensures { result ≡ live_in self.now.records.now }
    {
        self.records.iter().filter(|r| r.live).count()
    }

    // Whether the first places by the count name live records by strictly ascending address.
    #[tactic(auto, using(crate::proofs::Along::walking))]
    fn is_in_order(&self) -> bool
        requires { self.now.count ≤ length self.now.places.now }
        ensures { result ≡ in_order self.now.records.now 0 (take self.now.count self.now.places.now) }
    {
        let mut least = 0;
        for place in &self.places[..self.count] {
            match self.records.get(usize::from(*place)) {
                Some(r) if r.is_next(least) => least = r.address + 1,
                _ => return false,
            }
        }
        true
    }
}
