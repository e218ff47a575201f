// The sending end of uplink extended length messages (ELM): the interrogations that carry a message of 2 to 16 segments, written to a
// lent buffer, 14 bytes each.
//
// Opening, round and exchange are a call each. Whether a call is refused, and of how many transmissions it is, is decided by value
// from the lengths; one function writes a transmission. What is known of the encoder is its public function and its contract.
#![tactic(auto)]

mod choosing;

ghost use Rattle.std.specs.Prelude.{◌+◌, ◌*◌, ◌/◌, ◌<◌, ◌≤◌, ◌^◌, ◌≡◌, true, length, IfOk};
ghost use Rattle.outcome.specs.Outcomes.{unless, value};
ghost use Rattle.outcome.specs.Refusals.{not_sendable};
ghost use Rattle.uplink_elm.specs.Control.{number_of};
ghost use Rattle.uplink_elm.specs.Segments.{segment_at};
ghost use Rattle.uplink_elm_sending.specs.Sending.{said, transmission, transmissions, round_numbers, segment_count, is_round_size, is_segmented, last_outcome, round_outcome, opening_after, exchange_after, last_after, round_after};
ghost use Rattle.uplink_elm_sending.specs.Choosing.{begun};

use choosing::Unacknowledged;
use outcome::{Refusal, refuse_unless};
use uplink_elm::Control;

// Opens a message for the address: one transmission, RC 0 with the last segment.
//
// The project's document gives this call, exchange and round the address, the segments and the lent buffer apart. So do the functions below: a
// struct of them would be put together for the private ones alone, and be no plainer.
#[tactic(auto, unfolding(crate::specs::Sending::opening_after))]
pub fn open(address: u32, segments: &[u8], out: &mut [u8]) -> Result<usize, Refusal>
    ensures result_value { said result ≡ last_outcome address (length segments.now) (length out.old) }
    ensures out_after { out.new ≡ opening_after address segments.now out.old }
{
    send_last(Control::Opening, address, segments, out)
}

// Asks for the acknowledgement: one transmission, RC 2 with the last segment. The document names it beside open, from which it differs in RC
// alone; what both share is send_last.
#[tactic(auto, unfolding(crate::specs::Sending::exchange_after))]
pub fn exchange(address: u32, segments: &[u8], out: &mut [u8]) -> Result<usize, Refusal>
    ensures result_value { said result ≡ last_outcome address (length segments.now) (length out.old) }
    ensures out_after { out.new ≡ exchange_after address segments.now out.old }
{
    send_last(Control::Exchange, address, segments, out)
}

// A round of s transmissions, RC 1 with the segments that are not acknowledged; of none where all are.
#[tactic(auto, using(outcome::proofs::Laws::writing, message::proofs::Laws::words, crate::proofs::Numbers::rounding), unfolding(crate::specs::Sending::round_outcome, crate::specs::Sending::round_after, crate::specs::Sending::is_room, crate::specs::Sending::is_round_size))]
pub fn round(
    address: u32,
    segments: &[u8],
    acknowledgement: u16,
    s: usize,
    out: &mut [u8],
) -> Result<usize, Refusal>
    ensures result_value { said result ≡ round_outcome address (length segments.now) acknowledgement s (length out.old) }
    ensures out_after { out.new ≡ round_after address segments.now acknowledgement s out.old }
{
    refuse_unless(message::is_word(address), Refusal::WordTooLarge)?;
    refuse_unless(is_round_size(s), Refusal::NotSendable)?;
    let count = segment_count(segments.len())?;
    let missing = Unacknowledged {
        acknowledgement,
        count,
    };
    let n = missing.round_length(s);
    refuse_unless(out.len() == n * 14, Refusal::NotSendable)?;
    send_round(address, segments, missing, n, out);
    Ok(n)
}

// The opening or the exchange, by its RC.
#[tactic(auto, using(outcome::proofs::Laws::writing, message::proofs::Laws::words, crate::proofs::Transmitting::transmissions_one), unfolding(crate::specs::Sending::last_outcome, crate::specs::Sending::last_after, crate::specs::Sending::is_room, crate::specs::Sending::last_numbers))]
fn send_last(
    control: Control,
    address: u32,
    segments: &[u8],
    out: &mut [u8],
) -> Result<usize, Refusal>
    ensures result_value { said result ≡ last_outcome address (length segments.now) (length out.old) }
    ensures out_after { out.new ≡ last_after (number_of control) address segments.now out.old }
{
    refuse_unless(message::is_word(address), Refusal::WordTooLarge)?;
    let count = segment_count(segments.len())?;
    refuse_unless(out.len() == 14, Refusal::NotSendable)?;
    transmit(control, count - 1, address, segments, out);
    Ok(1)
}

// The number of the segments of a message, which are 2 to 16 whole ones.
#[tactic(auto, using(outcome::proofs::Laws::rows, crate::proofs::Answering::segmented), unfolding(crate::specs::Sending::segment_count))]
fn segment_count(bytes: usize) -> Result<u8, Refusal>
    ensures result_value { said result ≡ unless (is_segmented bytes) not_sendable (value (segment_count bytes)) }
    ensures ok { IfOk result (λ n. (bytes ≡ n * 10) × (2 ≤ n) × (n ≤ 16)) }
{
    refuse_unless(is_segmented(bytes), Refusal::NotSendable)?;
    // At most 16, as the check proves; Rust has no From to a narrower type, and try_from would test it again.
    Ok((bytes / 10) as u8)
}

#[tactic(auto, unfolding(crate::specs::Sending::is_round_size))]
fn is_round_size(s: usize) -> bool
    ensures { result ≡ is_round_size s }
{
    (1..=16).contains(&s)
}

// Of 2 to 16 whole segments.
#[tactic(auto, unfolding(crate::specs::Sending::is_segmented))]
fn is_segmented(bytes: usize) -> bool
    ensures { result ≡ is_segmented bytes }
{
    bytes % 10 == 0 && (2..=16).contains(&(bytes / 10))
}

// The transmissions of a round, from the lowest number on.
#[tactic(auto, using(crate::proofs::Numbers::going_on, crate::proofs::Transmitting::writing_round))]
fn send_round(address: u32, segments: &[u8], missing: Unacknowledged, n: usize, out: &mut [u8])
    requires address_bound { address < 2 ^ 24 }
    requires whole { length segments.now ≡ missing.count * 10 }
    requires few { missing.count ≤ 16 }
    requires out_len { length out.old ≡ n * 14 }
    requires n_len { length (round_numbers missing.acknowledgement missing.count n) ≡ n }
    requires n_bound { n ≤ 16 }
    ensures { out.new ≡ transmissions address 1 segments.now (round_numbers missing.acknowledgement missing.count n) }
{
    let mut from = 0;
    // By an index: of a buffer that `chunks_exact_mut` has lent, a proof knows the length alone.
    for i in 0..n {
        let number = missing.next_from(from).unwrap();
        let at = i * 14;
        transmit(
            Control::Round,
            number,
            address,
            segments,
            &mut out[at..at + 14],
        );
        from = number + 1;
    }
}

// Writes one transmission: the segment with this number, sealed for the address.
#[tactic(auto, using(crate::proofs::Transmitting::transmitting))]
fn transmit(control: Control, number: u8, address: u32, segments: &[u8], out: &mut [u8])
    requires number_bound { number < 16 }
    requires address_bound { address < 2 ^ 24 }
    requires number_in_bounds { number * 10 + 10 ≤ length segments.now }
    requires out_len { length out.old ≡ 14 }
    ensures { out.new ≡ transmission address (number_of control) number (segment_at segments.now number) }
{
    write_field(control, number, segment_at(segments, number), out);
    encoder::seal_interrogation(out, address).unwrap();
}

// The ten bytes of the segment with this number.
#[tactic(auto, using(crate::proofs::Transmitting::parting))]
fn segment_at(segments: &[u8], number: u8) -> &[u8]
    requires { number * 10 + 10 ≤ length segments.now }
    ensures value { result.now ≡ segment_at segments.now number }
    ensures len { length result.now ≡ 10 }
{
    let from = usize::from(number) * 10;
    &segments[from..from + 10]
}

// Writes what stands before the parity field: format, RC and NC in the first byte, and the segment.
#[tactic(auto, using(crate::proofs::Transmitting::put_field), unfolding(crate::specs::Choosing::begun))]
fn write_field(control: Control, number: u8, segment: &[u8], out: &mut [u8])
    requires number_bound { number < 16 }
    requires segment_len { length segment.now ≡ 10 }
    requires out_len { length out.old ≡ 14 }
    ensures { out.new ≡ begun (number_of control) number segment.now out.old }
{
    out[0] = 192 + 16 * u8::from(control) + number;
    out[1..11].copy_from_slice(segment);
}
