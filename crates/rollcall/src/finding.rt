// Where an address stands in a table: the search by halving, and what the list names where it ends.
ghost use Rattle.std.specs.Prelude.{◌≤◌, ◌≡◌, true, length, take, IfErr, IfOk};
ghost use Rattle.rollcall_table.specs.Table.{below, in_order};
ghost use Rattle.rollcall_plans.specs.Plans.{IsRefusalOf, IsSpotOf, listed_at};

use outcome::Refusal;
use rollcall_plans::{Placed, Spot};
use rollcall_table::Table;

// Where an address stands, or the row 3 or 8 that refuses the call. An address is looked for in a table, here and in search, and in found and
// removal of planning: it is no part of the table, and none of them keeps the two.
#[tactic(auto, using(rollcall_plans::proofs::Laws::locating))]
pub(crate) fn locate(table: &Table, address: u32) -> Result<Spot, Refusal>
    ensures spot { IfOk result (IsSpotOf table.now address) }
    ensures refused { IfErr result (IsRefusalOf table.now address) }
{
    table.check(address)?;
    let at = search(table, address);
    let listed = listed(table, at);
    Ok(Spot::new(at, listed, address))
}

// Where an address stands among the first places by the count, or is to stand: by halving.
fn search(table: &Table, address: u32) -> usize
    requires within { table.now.count ≤ length table.now.places.now }
    requires ordered { in_order table.now.records.now 0 (take table.now.count table.now.places.now) ≡ true }
    ensures { result ≡ below table.now.records.now address (take table.now.count table.now.places.now) }
{
    table.places[..table.count].partition_point(|place| {
        table
            .records
            .get(usize::from(*place))
            .is_some_and(|r| r.address < address)
    })
}

// What the list names at a position; nothing past the count. That the list is as long as the count is asked here, by search and by the
// test of its order, and is no part of Table: a call may lend one whose count is above its length.
fn listed(table: &Table, at: usize) -> Option<Placed>
    requires { table.now.count ≤ length table.now.places.now }
    ensures { result ≡ listed_at table.now.records.now table.now.places.now table.now.count at }
{
    let place = usize::from(*table.places[..table.count].get(at)?);
    let entry = *table.records.get(place)?;
    Some(Placed { place, entry })
}
