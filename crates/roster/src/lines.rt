// A line taken apart into what it asks for, and the numbers that its arguments write.
ghost use Rattle.std.specs.Prelude.{◌≤◌};

use console::{bit, word};
use rollcall::{Grade, Record, Sighting};

// What a line asks for: it sets the table, makes a call or prints the table.
pub(crate) enum Line {
    Table {
        records: TableLength,
        places: TableLength,
    },
    Count(usize),
    Place {
        index: usize,
        place: u16,
    },
    Record {
        index: usize,
        record: Record,
    },
    Call(Call),
    Show,
}

pub(crate) enum Call {
    Clear,
    Add(Sighting),
    Remove(u32),
    Find(u32),
}

// How many records or places a line can ask for.
#[derive(Clone, Copy)]
pub(crate) struct TableLength {
    pub(crate) n: usize,
    ghost within: { n ≤ 1024 },
}

// Nothing where the line is malformed.
pub(crate) fn read(columns: &[&[u8]]) -> Option<Line> {
    let line = match columns {
        [b"clear"] => Line::Call(Call::Clear),
        [b"show"] => Line::Show,
        [b"find", address] => Line::Call(Call::Find(word(address)?)),
        [b"remove", address] => Line::Call(Call::Remove(word(address)?)),
        [b"add", address, altitude, time, grade] => {
            Line::Call(Call::Add(sighting(address, altitude, time, grade)?))
        }
        [b"count", count] => Line::Count(index(count)?),
        [b"table", records, places] => Line::Table {
            records: length(records)?,
            places: length(places)?,
        },
        [b"place", place_index, place] => Line::Place {
            index: index(place_index)?,
            place: u16::try_from(number(place)?).ok()?,
        },
        [
            b"record",
            record_index,
            live,
            address,
            altitude,
            time,
            grade,
        ] => Line::Record {
            index: index(record_index)?,
            record: Record {
                live: bit(live)?,
                ..Record::from(sighting(address, altitude, time, grade)?)
            },
        },
        _ => return None,
    };
    Some(line)
}

fn sighting(address: &[u8], altitude: &[u8], time: &[u8], grade: &[u8]) -> Option<Sighting> {
    Some(Sighting {
        address: word(address)?,
        altitude: altitude_of(altitude)?,
        time: number(time)?,
        grade: grade_of(grade)?,
    })
}

fn grade_of(s: &[u8]) -> Option<Grade> {
    match s {
        b"0" => Some(Grade::Clean),
        b"1" => Some(Grade::Sole),
        b"2" => Some(Grade::Several),
        _ => None,
    }
}

// ---- numbers

fn length(s: &[u8]) -> Option<TableLength> {
    let n = index(s)?;
    // Not by `then`: in the closure the check does not know the bound, which the type asks for.
    if n <= 1024 {
        Some(TableLength { n })
    } else {
        None
    }
}

fn index(s: &[u8]) -> Option<usize> {
    usize::try_from(number(s)?).ok()
}

// 1 to 20 decimal digits whose number 64 bits hold.
fn number(s: &[u8]) -> Option<u64> {
    if s.is_empty() || 20 < s.len() {
        return None;
    }
    s.iter().try_fold(0u64, |value, digit| match digit {
        b'0'..=b'9' => value.checked_mul(10)?.checked_add(u64::from(*digit - b'0')),
        _ => None,
    })
}

// An altitude: `-` where it is missing, else a number of 32 bits with its sign.
fn altitude_of(s: &[u8]) -> Option<Option<i32>> {
    let feet = match s {
        b"-" => return Some(None),
        [b'-', digits @ ..] => i64::try_from(number(digits)?).ok()?.checked_neg()?,
        _ => i64::try_from(number(s)?).ok()?,
    };
    i32::try_from(feet).ok().map(Some)
}
