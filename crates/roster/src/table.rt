// The table that the lines set, call and print. The memory is fixed: a table of the longest lengths, of which a line asks for parts.
// Arrays with their lengths beside them, and no `ArrayVec`: a line sets both lengths and the count apart, as the calls are given them.
use crate::answers::{put_answer, put_list};
use crate::lines;
use crate::lines::{Call, Line, TableLength};
use console::Answering;
use rollcall::{Record, Reply};
use text::Output;

// The first records and the first places are the table's.
#[derive(Drop)]
pub(crate) struct Roster {
    records: [Record; 1024],
    places: [u16; 1024],
    sizes: Sizes,
}

// How many of each are the table's, and the count that is passed in and returned.
#[derive(Clone, Copy)]
struct Sizes {
    records: TableLength,
    places: TableLength,
    count: usize,
}

impl Roster {
    // As after `table 16 16`.
    pub(crate) fn new() -> Roster {
        Roster {
            records: [rollcall_table::blank(); 1024],
            places: [0; 1024],
            sizes: Sizes {
                records: TableLength { n: 16 },
                places: TableLength { n: 16 },
                count: 0,
            },
        }
    }

    // A table that is all zero and not live. What is past its lengths no line reads before the next reset.
    fn reset(&mut self, records: TableLength, places: TableLength) {
        self.records[..records.n].fill(rollcall_table::blank());
        self.places[..places.n].fill(0);
        self.sizes = Sizes {
            records,
            places,
            count: 0,
        };
    }

    fn call(&mut self, call: Call) -> Reply {
        let Roster {
            records,
            places,
            sizes,
        } = self;
        make(call, records, places, *sizes)
    }

    fn put(&self, answer: &[u8], out: &mut Output<'_>) {
        out.put_bytes(answer);
        out.put_byte(b' ');
        // Rust has no From of a usize for a u64; nothing is lost.
        out.put_decimal(self.sizes.count as u64);
    }
}

impl Answering for Roster {
    // Does what a line asks for, and appends the answer, the count after the line, and what an answer of a call has more.
    fn answer(&mut self, columns: &[&[u8]], out: &mut Output<'_>) {
        match lines::read(columns) {
            None => self.put(b" malformed", out),
            Some(Line::Table { records, places }) => {
                self.reset(records, places);
                self.put(b" table", out);
            }
            Some(Line::Count(count)) => {
                self.sizes.count = count;
                self.put(b" set", out);
            }
            Some(Line::Place { index, place }) => {
                let named = set(&mut self.places[..self.sizes.places.n], index, place);
                self.put(named, out);
            }
            Some(Line::Record { index, record }) => {
                let named = set(&mut self.records[..self.sizes.records.n], index, record);
                self.put(named, out);
            }
            Some(Line::Call(call)) => {
                let reply = self.call(call);
                self.sizes.count = reply.count;
                put_answer(reply, out);
            }
            Some(Line::Show) => {
                self.put(b" shown", out);
                put_list(&self.places[..self.sizes.places.n], out);
                put_list(&self.records[..self.sizes.records.n], out);
            }
        }
    }
}

fn make(call: Call, records: &mut [Record; 1024], places: &mut [u16; 1024], sizes: Sizes) -> Reply {
    let records = &mut records[..sizes.records.n];
    let places = &mut places[..sizes.places.n];
    match call {
        Call::Clear => rollcall::clear(records, places, sizes.count),
        Call::Add(sighting) => rollcall::add_or_renew(records, places, sizes.count, sighting),
        Call::Remove(address) => rollcall::remove(records, places, sizes.count, address),
        Call::Find(address) => rollcall::find(records, places, sizes.count, address),
    }
}

// Sets an item, if there is one at the index, and answers so.
fn set<T: Copy>(items: &mut [T], index: usize, item: T) -> &'static [u8] {
    match items.get_mut(index) {
        Some(place) => {
            *place = item;
            b" set"
        }
        None => b" outside",
    }
}
