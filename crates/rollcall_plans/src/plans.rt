// What is decided about a call, by value.
ghost use Rattle.std.specs.Prelude.{◌≡◌};
ghost use Rattle.rollcall_plans.specs.Plans.{addition_of, answer_of, clearing_plan, count_of, entrance_of, found_by, idle_of, removal_of, renewal_of, spot_by};

use crate::{Change, Placed, Plan, Reply, Rolled, Spot};
use outcome::Refusal;
use rollcall_table::{Record, lowered, raised};

impl Spot {
    // The spot of an address, by the record that the list names at the position where it stands or is to stand.
    pub fn new(at: usize, listed: Option<Placed>, address: u32) -> Spot
        ensures { result ≡ spot_by at listed address }
    {
        Spot {
            at,
            held: listed.filter(|placed| placed.entry.is_of(address)),
        }
    }
}

// The answer of find.
pub fn found(spot: Spot) -> Rolled
    ensures { result ≡ found_by spot.held }
{
    spot.held
        .map_or(Rolled::Absent, |held| Rolled::Found(held.entry))
}

// What clear is to change.
pub fn clearing() -> Plan
    ensures { result ≡ clearing_plan }
{
    Plan {
        answer: Rolled::Cleared,
        count: 0,
        change: Change::Unmarked,
    }
}

// What remove is to change.
pub fn removal(spot: Spot, count: usize) -> Plan
    ensures { result ≡ removal_of spot.at spot.held count }
{
    match spot.held {
        Some(held) => {
            let entry = held.entry.unmarked();
            Plan {
                answer: Rolled::Removed,
                count: lowered(count),
                change: Change::Left(spot.at, Placed { entry, ..held }),
            }
        }
        None => idle(Rolled::Absent, count),
    }
}

// What adding or renewing is to change, where a place is free or none: row 9 is asked last.
pub fn addition(
    spot: Spot,
    free: Option<usize>,
    count: usize,
    entry: Record,
) -> Result<Plan, Refusal>
    ensures { result ≡ addition_of spot.at spot.held free count entry }
{
    match spot.held {
        Some(held) => Ok(renewal(held, count, entry)),
        None => {
            let place = free.ok_or(Refusal::TableFull)?;
            Ok(entrance(spot.at, Placed { place, entry }, count))
        }
    }
}

// The record held remains unless the new one beats it.
fn renewal(held: Placed, count: usize, entry: Record) -> Plan
    ensures { result ≡ renewal_of held count entry }
{
    if entry.beats(held.entry) {
        Plan {
            answer: Rolled::Renewed,
            count,
            change: Change::Replaced(Placed { entry, ..held }),
        }
    } else {
        idle(Rolled::Held, count)
    }
}

// A new address enters at a free place.
fn entrance(at: usize, put: Placed, count: usize) -> Plan
    ensures { result ≡ entrance_of at put.place count put.entry }
{
    Plan {
        answer: Rolled::Added,
        count: raised(count),
        change: Change::Entered(at, put),
    }
}

// A plan that changes nothing.
fn idle(answer: Rolled, count: usize) -> Plan
    ensures { result ≡ idle_of answer count }
{
    Plan {
        answer,
        count,
        change: Change::Nothing,
    }
}

// The reply of a plan that is carried out; of a refused call, whose count is as passed in.
pub fn reply_of(plan: Result<Plan, Refusal>, count: usize) -> Reply
    ensures answer { result.answer ≡ answer_of plan }
    ensures count { result.count ≡ count_of plan count }
{
    match plan {
        Ok(plan) => Reply {
            answer: Ok(plan.answer),
            count: plan.count,
        },
        Err(refusal) => Reply {
            answer: Err(refusal),
            count,
        },
    }
}
