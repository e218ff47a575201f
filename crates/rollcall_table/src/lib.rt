// What a roll-call table is: its records, the table as a call lends it, and what is decided about single records and about a table that
// is only read.
//
// What a call changes is decided in rollcall_plans and done in rollcall.
#![tactic(auto)]

mod records;
mod standing;
mod table;

pub use records::{blank, lowered, raised};
pub use table::{Table, check_lengths};

// The largest length of a table.
const LARGEST: usize = 384;

// How a reply was received, by the sensor's answer: clean, or corrected with the mark sole or several; the better first.
#[derive(Clone, Copy, Debug, PartialEq, Eq, PartialOrd, Ord)]
pub enum Grade {
    Clean,
    Sole,
    Several,
}

// What is held of one aircraft: the altitude in feet, if there is one; the time in milliseconds. The mark stands beside the fields, and
// not round them in an Option: a record that is not live may hold anything, and clear and remove leave in it what it held. The fields
// are those of a Sighting, but no Sighting is part of it: whoever holds a table fills it record by record.
#[derive(Clone, Copy, Debug, PartialEq, Eq)]
pub struct Record {
    pub live: bool,
    pub address: u32,
    pub altitude: Option<i32>,
    pub time: u64,
    pub grade: Grade,
}

// A reply of an aircraft, as it is added or renewed.
#[derive(Clone, Copy, Debug, PartialEq, Eq)]
pub struct Sighting {
    pub address: u32,
    pub altitude: Option<i32>,
    pub time: u64,
    pub grade: Grade,
}
