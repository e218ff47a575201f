// The buffers of a call, and the functions that write to them.
ghost use Rattle.std.specs.Prelude.{◌≡◌, length};
ghost use Rattle.rollcall_table.specs.Table.{unmarked_all};
ghost use Rattle.rollcall_plans.specs.Plans.{AllWithin, answer_of, count_of, places_of, records_of};

use crate::places;
use outcome::Refusal;
use rollcall_plans::{Change, Plan, Reply};
use rollcall_table::{Record, Table};

// The records and the places, lent to be written, and the count.
#[derive(Drop)]
pub(crate) struct Lent<'a> {
    pub(crate) records: &'a mut [Record],
    pub(crate) places: &'a mut [u16],
    pub(crate) count: usize,
}

impl Lent<'_> {
    // The table that they hold, to be read.
    pub(crate) fn table(&self) -> Table<'_>
        ensures records { result.records.now ≡ self.now.records.now }
        ensures places { result.places.now ≡ self.now.places.now }
        ensures count { result.count ≡ self.now.count }
    {
        Table {
            records: self.records,
            places: self.places,
            count: self.count,
        }
    }

    // Changes what a plan says, and gives its reply, or that of a refused call. What is left at the exit: the records first, then the places.
    pub(crate) fn carry_out(self, plan: Result<Plan, Refusal>) -> Reply
        requires { AllWithin plan self.count (length self.records.now) (length self.places.now) }
        ensures answer { result.answer ≡ answer_of plan }
        ensures count { result.count ≡ count_of plan self.entry.count }
        ensures records { self.exit.0.now ≡ records_of plan self.entry.records.now }
        ensures places { self.exit.1.0.now ≡ places_of plan self.entry.count self.entry.places.now }
    {
        let Lent {
            records,
            places,
            count,
        } = self;
        match plan.map_or(Change::Nothing, |plan| plan.change) {
            Change::Nothing => {}
            Change::Unmarked => unmark_all(records),
            Change::Replaced(put) => records[put.place] = put.entry,
            Change::Entered(at, put) => {
                records[put.place] = put.entry;
                // The place fits 16 bits, by AllWithin: try_from would only test it again.
                places::enter(places, at, count, put.place as u16);
            }
            Change::Left(at, put) => {
                records[put.place] = put.entry;
                places::leave(places, at, count);
            }
        }
        rollcall_plans::reply_of(plan, count)
    }
}

// Unsets every live mark. It needs the records alone, whatever the list names.
#[tactic(auto, using(rollcall_table::proofs::Laws::unmark_turn, rollcall_table::proofs::Laws::unmark_end))]
fn unmark_all(records: &mut [Record])
    ensures { records.new ≡ unmarked_all records.old }
{
    for r in records.iter_mut() {
        *r = r.unmarked();
    }
}
