// What is decided about single records, and the count after one leaves or enters.
ghost use Rattle.std.specs.Prelude.{◌≡◌, ◌-◌};
ghost use Rattle.rollcall_table.specs.Table.{blank as blank_record, holds, is_next, record_of, unmarked};
ghost use Rattle.rollcall_table.specs.Checks.{raised_of};

use crate::{Grade, LARGEST, Record, Sighting};

// What stands where there is no record. By a name, and not by `Default`: no value of a record is the one to be expected.
pub fn blank() -> Record
    ensures { result ≡ blank_record }
{
    Record {
        live: false,
        address: 0,
        altitude: None,
        time: 0,
        grade: Grade::Clean,
    }
}

impl Record {
    // The record with its live mark unset.
    pub fn unmarked(self) -> Record
        ensures { result ≡ unmarked self }
    {
        Record {
            live: false,
            ..self
        }
    }

    // Whether it is the live record of an address.
    pub fn is_of(self, address: u32) -> bool
        ensures { result ≡ holds self address }
    {
        self.live && self.address == address
    }

    // Whether it can be listed next, after addresses below the least one.
    pub(crate) fn is_next(self, least: u32) -> bool
        ensures { result ≡ is_next least self }
    {
        self.live && least <= self.address && message::is_word(self.address)
    }
}

// The live record of a sighting.
impl From<Sighting> for Record {
    ghost from_gives = { λ s r. r ≡ record_of s };

    fn from(s: Sighting) -> Record {
        Record {
            live: true,
            address: s.address,
            altitude: s.altitude,
            time: s.time,
            grade: s.grade,
        }
    }
}

// The count after a removal.
pub fn lowered(count: usize) -> usize
    ensures { result ≡ count - 1 }
{
    count.saturating_sub(1)
}

// The count after a new address; from the largest length on it stays as it is.
pub fn raised(count: usize) -> usize
    ensures { result ≡ raised_of count }
{
    if count < LARGEST { count + 1 } else { count }
}
