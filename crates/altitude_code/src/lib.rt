// The 13-bit altitude code of replies (Annex 10 Volume IV: AC), apart from any message: which altitude a code means, and which
// code means an altitude.
//
// Inside, altitudes are counted in feet above −1200, the lowest of all, and so without a sign; `feet` and `above_lowest` are
// the two ways between the two.
#![tactic(auto)]

ghost use Rattle.std.specs.Prelude.{◌<◌, ◌≤◌, ◌≡◌, ◌+◌, ◌*◌, pos, ◌-ℤ◌, IfSome};
ghost use Rattle.altitude_code.specs.Altitudes.{decoded_of, encoded_of};
ghost use Rattle.altitude_code.specs.Counting.{above_lowest, steps_from};

mod bits;
mod hundreds;
mod table;

// What a code means: an altitude in feet, none, a metric one that is not decoded, or nothing that the 100-foot code has.
#[derive(Clone, Copy, Debug, PartialEq, Eq)]
pub enum Decoded {
    Feet(i32),
    NoAltitude,
    Metric,
    Illegal,
}

// What a code means; of a number above 13 bits, its low 13.
#[tactic(auto, using(crate::proofs::Decoding::decoding), unfolding(crate::specs::Altitudes::decoded_of, crate::specs::Codes::digit))]
pub fn decode(code: u32) -> Decoded
    ensures { result ≡ decoded_of code }
{
    if code % 8192 == 0 {
        return Decoded::NoAltitude;
    }
    if bits::bit(code, bits::M) == 1 {
        return Decoded::Metric;
    }
    if bits::bit(code, bits::Q) == 1 {
        return Decoded::Feet(feet(25 * bits::eleven_bits(code) + 200));
    }
    hundreds::decode(code)
}

// The code of an altitude in steps of 25 or 100 feet, or None where the code of that step has no such altitude. Any step may be
// asked for: an enum of the two would take less than a caller may hold.
#[tactic(auto, using(crate::proofs::Encoding::encoding))]
pub fn encode(altitude: i32, step: u32) -> Option<u32>
    ensures { result ≡ encoded_of altitude step }
{
    let above = above_lowest(altitude)?;
    match step {
        25 => steps_from(above, 200, 51375, 25).map(bits::with_eleven_bits),
        100 => steps_from(above, 0, 127900, 100).map(table::pattern),
        _ => None,
    }
}

// How many steps it is above the low end, if it is a multiple of the step between the two ends, which belong to it.
#[tactic(auto, unfolding(crate::specs::Counting::steps_from, crate::specs::Counting::is_at))]
fn steps_from(above: u32, low: u32, high: u32, step: u32) -> Option<u32>
    requires { 0 < step }
    ensures value { result ≡ steps_from low high step above }
    ensures bound { IfSome result (λ steps. low + steps * step ≤ high) }
{
    let is_a_step = (low..=high).contains(&above) && above % step == 0;
    is_a_step.then(|| (above - low) / step)
}

// Feet above −1200 as an altitude.
pub(crate) fn feet(above: u32) -> i32
    requires { above ≤ 127900 }
    ensures { result ≡ pos above -ℤ pos 1200 }
{
    (-1200_i32).checked_add_unsigned(above).unwrap()
}

// An altitude as feet above −1200, or None of a lower one.
#[tactic(auto, unfolding(crate::specs::Counting::above_lowest))]
fn above_lowest(altitude: i32) -> Option<u32>
    ensures { result ≡ above_lowest altitude }
{
    1200_u32.checked_add_signed(altitude)
}
