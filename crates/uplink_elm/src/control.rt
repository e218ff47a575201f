// What the first byte of a message says of the format, RC and NC; of no bytes, as of a byte 0.
ghost use Rattle.std.specs.Prelude.{◌<◌, ◌≡◌, get_or};
ghost use Rattle.uplink_elm.specs.Segments.{is_extended, reply_control, segment_number, bit_of};
ghost use Rattle.uplink_elm.specs.Control.{number_of, control_of};

// What a segment is sent for, by its RC (reply control): it opens a message, is one of a round, or asks for the acknowledgement.
//
// Three cases with a number each, as the Grade of a reply has in the roll call: no one enum would serve both, nor one conversion.
#[derive(Clone, Copy, Debug, PartialEq, Eq)]
pub enum Control {
    Opening,
    Round,
    Exchange,
}

// Its RC.
impl From<Control> for u8 {
    ghost from_gives = { λ control n. n ≡ number_of control };

    fn from(control: Control) -> u8 {
        match control {
            Control::Opening => 0,
            Control::Round => 1,
            Control::Exchange => 2,
        }
    }
}

// The number of a segment, NC (number of C-segment): one of 16.
#[derive(Clone, Copy)]
pub(crate) struct Number {
    pub(crate) value: u8,
    ghost one_of_16: { value < 16 },
}

impl Number {
    // Its bit in the numbers held.
    #[tactic(auto, using(crate::proofs::Numbers::bit_exact))]
    pub(crate) fn bit(self) -> u16
        ensures { result ≡ bit_of self.value }
    {
        1 << (15 - self.value)
    }
}

#[tactic(auto, unfolding(crate::specs::Segments::is_extended))]
pub(crate) fn is_extended(m: &[u8]) -> bool
    ensures { result ≡ is_extended m.now }
{
    first_byte(m) / 64 == 3
}

// None of RC 3. The other way from `From<Control>`, and no `TryFrom`: its error would say no more than None does.
#[tactic(auto, unfolding(crate::specs::Segments::reply_control))]
pub(crate) fn reply_control(m: &[u8]) -> Option<Control>
    ensures { result ≡ control_of (reply_control m.now) }
{
    match first_byte(m) / 16 % 4 {
        0 => Some(Control::Opening),
        1 => Some(Control::Round),
        2 => Some(Control::Exchange),
        _ => None,
    }
}

#[tactic(auto, unfolding(crate::specs::Segments::segment_number))]
pub(crate) fn segment_number(m: &[u8]) -> Number
    ensures { result.value ≡ segment_number m.now }
{
    Number {
        value: first_byte(m) % 16,
    }
}

fn first_byte(m: &[u8]) -> u8
    ensures { result ≡ get_or m.now 0 0 }
{
    m.first().copied().unwrap_or(0)
}
