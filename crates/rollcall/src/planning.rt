// What each call is to answer and to change, or why it is refused: read from the table, which stays as it is.
ghost use Rattle.std.specs.Prelude.{◌≡◌};
ghost use Rattle.rollcall_plans.specs.Calls.{find_outcome, said};
ghost use Rattle.rollcall_plans.specs.Plans.{IsAddition, IsClearing, IsRemoval};

use crate::finding;
use outcome::Refusal;
use rollcall_plans::{Plan, Rolled};
use rollcall_table::{Record, Sighting, Table, check_lengths};

#[tactic(auto, unfolding(rollcall_plans::specs::Calls::clear_outcome, rollcall_plans::specs::Calls::clear_count, rollcall_plans::specs::Calls::clear_records))]
pub(crate) fn clearing(table: &Table) -> Result<Plan, Refusal>
    ensures { IsClearing table.now result }
{
    check_lengths(table.records.len(), table.places.len())?;
    Ok(rollcall_plans::clearing())
}

#[tactic(auto, using(rollcall_plans::proofs::Laws::finding), unfolding(rollcall_plans::specs::Calls::find_outcome))]
pub(crate) fn found(table: &Table, address: u32) -> Result<Rolled, Refusal>
    ensures { said result ≡ find_outcome table.now.records.now table.now.places.now table.now.count address }
{
    let spot = finding::locate(table, address)?;
    Ok(rollcall_plans::found(spot))
}

#[tactic(auto, using(rollcall_plans::proofs::Laws::removes), unfolding(rollcall_plans::specs::Calls::remove_outcome, rollcall_plans::specs::Calls::remove_count, rollcall_plans::specs::Calls::remove_records, rollcall_plans::specs::Calls::remove_places))]
pub(crate) fn removal(table: &Table, address: u32) -> Result<Plan, Refusal>
    ensures { IsRemoval table.now address result }
{
    let spot = finding::locate(table, address)?;
    Ok(rollcall_plans::removal(spot, table.count))
}

#[tactic(auto, using(rollcall_plans::proofs::Laws::adds), unfolding(rollcall_plans::specs::Calls::add_outcome, rollcall_plans::specs::Calls::add_count, rollcall_plans::specs::Calls::add_records, rollcall_plans::specs::Calls::add_places))]
pub(crate) fn addition(table: &Table, s: Sighting) -> Result<Plan, Refusal>
    ensures { IsAddition table.now s result }
{
    let spot = finding::locate(table, s.address)?;
    let free = table.free_place();
    rollcall_plans::addition(spot, free, table.count, Record::from(s))
}
