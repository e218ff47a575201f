// The list of places: opened for a new place, and closed over one that leaves.
ghost use Rattle.std.specs.Prelude.{◌+◌, ◌-◌, ◌≤◌, ◌<◌, ◌≡◌, length};
ghost use Rattle.rollcall_plans.specs.Calls.{closed, opened};

// From a position of the list on, up to the count, the entries move up by one, and a place stands before them.
#[tactic(auto, using(rollcall_plans::proofs::Laws::entered))]
pub(crate) fn enter(places: &mut [u16], at: usize, count: usize, place: u16)
    requires { (at ≤ count) × (count < length places.old) }
    ensures { places.new ≡ opened at (count + 1 - at) place places.old }
{
    places.copy_within(at..count, at + 1);
    places[at] = place;
}

// From a position of the list on, up to the count, each entry takes what stands after it.
#[tactic(auto, using(rollcall_plans::proofs::Laws::left))]
pub(crate) fn leave(places: &mut [u16], at: usize, count: usize)
    requires { (at < count) × (count ≤ length places.old) }
    ensures { places.new ≡ closed at (count - 1 - at) places.old }
{
    places.copy_within(at + 1..count, at);
}
