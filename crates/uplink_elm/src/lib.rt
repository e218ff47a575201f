// The receiving end of uplink extended length messages (ELM): a message of up to 16 segments of ten bytes, sent one a time in
// interrogations of uplink format 24.
//
// The receiver is a small struct by value: whether a message is opened, its last number, and which numbers are held. The bytes
// of its 16 places are lent beside it. What a segment does is decided by value (`effect`); one function touches the bytes.
// What is known of the transponder is its public function and its contract.
#![tactic(auto)]

mod control;
mod holding;

ghost use Rattle.std.specs.Prelude.{◌≡◌, cond, length};
ghost use Rattle.transponder.specs.Receptions.{answered};
ghost use Rattle.uplink_elm.specs.Segments.{segment_number, segment, stored};
ghost use Rattle.uplink_elm.specs.Receiving.{said, is_own, fresh_receiver, opening_effect, adding_effect, own_effect, receiving_outcome, receiver_after, segments_after};

pub use control::Control;
use control::Number;
pub use holding::is_held;
use outcome::{Refusal, refuse_unless};
use transponder::Reception;

// Whether a message is opened, the number of its last segment, and the segments held: a bit for each of 16 numbers, the top
// one for 0.
//
// An `Option` of a message would be narrower: a caller may hand in any value, also one that is not opened and holds something,
// and is told what it holds.
//
// This struct, Progress, Answer and Received look as Spot, Placed, Reply and Plan of the roll call do, which have two or three fields too;
// each has fields of its own meaning and types.
#[derive(Clone, Copy, Debug, PartialEq, Eq)]
pub struct Receiver {
    pub opened: bool,
    pub last: u8,
    pub held: u16,
}

// How far a message has come: the acknowledgement, and whether all its segments are held. The acknowledgement counts whether they are or
// not, so `whole` is no sign of it, and no Option would hold both.
#[derive(Clone, Copy, Debug, PartialEq, Eq)]
pub struct Progress {
    pub acknowledgement: u16,
    pub whole: bool,
}

// The transponder's answer with the progress.
#[derive(Clone, Copy, Debug, PartialEq, Eq)]
pub struct Answer {
    pub reception: Reception,
    pub progress: Progress,
}

// What a call gives: its answer, and the receiver after it. The call takes the receiver by value, so that a caller still has the one
// before it.
#[derive(Clone, Copy, Debug, PartialEq, Eq)]
pub struct Received {
    pub answer: Result<Answer, Refusal>,
    pub receiver: Receiver,
}

// A receiver with nothing opened. By a name, which the calls' document has, and not by `Default`.
pub fn fresh() -> Receiver
    ensures { result ≡ fresh_receiver }
{
    Receiver {
        opened: false,
        last: 0,
        held: 0,
    }
}

// Receives a message with this own address. The segment with number n has bytes 10 n to 10 n + 9 of the places.
pub fn receive(own: u32, m: &[u8], mut receiver: Receiver, segments: &mut [u8; 160]) -> Received
    ensures answer_value { said result.answer ≡ receiving_outcome own m.now receiver }
    ensures receiver_value { result.receiver ≡ receiver_after own m.now receiver }
    ensures segments_after { segments.new ≡ segments_after own m.now receiver segments.old }
{
    let answer = advance(own, m, &mut receiver, segments);
    Received { answer, receiver }
}

// The call, which leaves the receiver as it will be; a refused one leaves it and the places as they were.
#[tactic(auto, using(crate::proofs::Effects::advancing), unfolding(crate::specs::Receiving::receiving_outcome, crate::specs::Receiving::receiver_after, crate::specs::Receiving::segments_after, crate::specs::Receiving::call_effect, crate::specs::Receiving::own_effect))]
fn advance(
    own: u32,
    m: &[u8],
    receiver: &mut Receiver,
    segments: &mut [u8; 160],
) -> Result<Answer, Refusal>
    ensures answer_value { said result ≡ receiving_outcome own m.now receiver.old }
    ensures receiver_value { receiver.new ≡ receiver_after own m.now receiver.old }
    ensures segments_after { segments.new ≡ segments_after own m.now receiver.old segments.old }
{
    let reception = transponder::receive(own, m)?;
    if let Some(next) = effect(reception, m, *receiver)? {
        store(m, segments);
        *receiver = next;
    }
    Ok(Answer {
        reception,
        progress: receiver.progress(),
    })
}

// What an interrogation does: it is refused, changes nothing, or stores its segment and leaves this receiver. It does nothing
// unless it is read as the own address and of this format.
#[tactic(auto, unfolding(crate::specs::Receiving::own_effect, crate::specs::Receiving::effect_of))]
fn effect(reception: Reception, m: &[u8], receiver: Receiver) -> Result<Option<Receiver>, Refusal>
    ensures { result ≡ cond (is_own (answered reception)) (own_effect m.now receiver) (Ok None) }
{
    if reception != Reception::Own || !control::is_extended(m) {
        return Ok(None);
    }
    let number = control::segment_number(m);
    match control::reply_control(m) {
        Some(Control::Opening) => opening(number),
        Some(Control::Round | Control::Exchange) => adding(number, receiver),
        None => Ok(None),
    }
}

#[tactic(auto, using(crate::proofs::Effects::refusing))]
fn opening(number: Number) -> Result<Option<Receiver>, Refusal>
    ensures { result ≡ opening_effect number.value }
{
    refuse_unless(number.value != 0, Refusal::NothingOpened)?;
    Ok(Some(Receiver {
        opened: true,
        last: number.value,
        held: number.bit(),
    }))
}

#[tactic(auto, using(crate::proofs::Effects::refusing), unfolding(crate::specs::Segments::with_number))]
fn adding(number: Number, receiver: Receiver) -> Result<Option<Receiver>, Refusal>
    ensures { result ≡ adding_effect number.value receiver }
{
    refuse_unless(receiver.opened, Refusal::NothingOpened)?;
    refuse_unless(number.value <= receiver.last, Refusal::NumberAboveLast)?;
    Ok(Some(Receiver {
        held: receiver.held | number.bit(),
        ..receiver
    }))
}

// The segment of a message goes to the place of its number.
#[tactic(auto, using(crate::proofs::Places::put_segment))]
fn store(m: &[u8], segments: &mut [u8; 160])
    requires { length m.now ≡ 14 }
    ensures { segments.new ≡ stored (segment_number m.now) (segment m.now) segments.old }
{
    let from = usize::from(control::segment_number(m).value) * 10;
    segments[from..from + 10].copy_from_slice(&m[1..11]);
}
