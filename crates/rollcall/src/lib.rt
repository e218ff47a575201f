// The roll-call table: lent records, one per aircraft, and beside them the lent list of the live ones' places by ascending
// address, with its count, which is passed in and returned.
//
// A call first reads the table and decides what to change (planning, by rollcall_plans), and then changes it (changing). A refused call
// is an Err all the way, and changes nothing.
#![tactic(auto)]

ghost use Rattle.std.specs.Prelude.{◌≡◌, length};
ghost use Rattle.rollcall_plans.specs.Calls.{said, clear_outcome, clear_count, clear_records, find_outcome, remove_outcome, remove_count, remove_records, remove_places, add_outcome, add_count, add_records, add_places};

mod changing;
mod finding;
mod places;
mod planning;

use changing::Lent;
pub use rollcall_plans::{Reply, Rolled};
use rollcall_table::Table;
pub use rollcall_table::{Grade, Record, Sighting};

// Sets every live mark to not live; the list is empty. It mends any table of right lengths.
//
// The project's document names this call, and find, remove and add_or_renew, with two lent buffers and a count. From here on they are one
// struct: Lent, to be written, and Table, to be read; only the two functions that move the list take it with its count.
pub fn clear(records: &mut [Record], places: &mut [u16], count: usize) -> Reply
    ensures answer { said result.answer ≡ clear_outcome records.old places.old }
    ensures count { result.count ≡ clear_count records.old places.old count }
    ensures records { records.new ≡ clear_records records.old places.old }
    ensures places { places.new ≡ places.old }
{
    let lent = Lent {
        records,
        places,
        count,
    };
    let plan = planning::clearing(&lent.table());
    lent.carry_out(plan)
}

// Gives the live record of an address, or says that there is none: find is the call's name, and no position that is searched for.
pub fn find(records: &[Record], places: &[u16], count: usize, address: u32) -> Reply
    ensures answer { said result.answer ≡ find_outcome records.now places.now count address }
    ensures count { result.count ≡ count }
{
    let table = Table {
        records,
        places,
        count,
    };
    Reply {
        answer: planning::found(&table, address),
        count,
    }
}

// Takes the live record of an address out.
pub fn remove(records: &mut [Record], places: &mut [u16], count: usize, address: u32) -> Reply
    ensures answer { said result.answer ≡ remove_outcome records.old places.old count address }
    ensures count { result.count ≡ remove_count records.old places.old count address }
    ensures records { records.new ≡ remove_records records.old places.old count address }
    ensures places { places.new ≡ remove_places records.old places.old count address }
{
    let lent = Lent {
        records,
        places,
        count,
    };
    let plan = planning::removal(&lent.table(), address);
    lent.carry_out(plan)
}

// Gives a new address a place. The record of a live one is replaced where the reply beats it, and remains otherwise.
//
// It differs from remove in the plan alone. What both share is carry_out, which is given the plan: given a closure that plans, its contract
// would have to speak of whatever the closure may answer.
pub fn add_or_renew(records: &mut [Record], places: &mut [u16], count: usize, s: Sighting) -> Reply
    ensures answer { said result.answer ≡ add_outcome records.old places.old count s }
    ensures count { result.count ≡ add_count records.old places.old count s }
    ensures records { records.new ≡ add_records records.old places.old count s }
    ensures places { places.new ≡ add_places records.old places.old count s }
{
    let lent = Lent {
        records,
        places,
        count,
    };
    let plan = planning::addition(&lent.table(), s);
    lent.carry_out(plan)
}
