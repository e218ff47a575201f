// What a call on a roll-call table answers and changes, decided by value from where the address stands.
#![tactic(auto)]

use outcome::Refusal;
use rollcall_table::Record;

mod plans;

pub use plans::{addition, clearing, found, removal, reply_of};

// What a call answers that is not refused.
#[derive(Clone, Copy, Debug, PartialEq, Eq)]
pub enum Rolled {
    Cleared,
    Added,
    Renewed,
    Removed,
    Found(Record),
    Absent,
    Held,
}

// The answer, or why the call is refused; and the count after the call.
#[derive(Clone, Copy, Debug, PartialEq, Eq)]
pub struct Reply {
    pub answer: Result<Rolled, Refusal>,
    pub count: usize,
}

// A record and its place.
#[derive(Clone, Copy, Debug, PartialEq, Eq)]
pub struct Placed {
    pub place: usize,
    pub entry: Record,
}

// Where an address stands in the list, or is to stand; and its live record, if there is one.
#[derive(Clone, Copy, Debug, PartialEq, Eq)]
pub struct Spot {
    pub at: usize,
    pub held: Option<Placed>,
}

// What a call changes: nothing; every live mark, which is unset; a record, which another replaces at its place; or a record and the list,
// which its place enters at a position, or leaves there. That nothing changes is an arm as the others are: an Option round the rest would be
// taken apart first wherever a change is matched.
#[derive(Clone, Copy, Debug, PartialEq, Eq)]
pub enum Change {
    Nothing,
    Unmarked,
    Replaced(Placed),
    Entered(usize, Placed),
    Left(usize, Placed),
}

// What a call answers and changes, and the count after it.
#[derive(Clone, Copy, Debug, PartialEq, Eq)]
pub struct Plan {
    pub answer: Rolled,
    pub count: usize,
    pub change: Change,
}
