// The transponder: the address that an interrogation is read as, and whether it is for this transponder.
//
// What it knows of division are its public functions and their contracts.
#![tactic(auto)]

ghost use Rattle.std.specs.Prelude.{◌≡◌};
ghost use Rattle.transponder.specs.Receptions.{said, is_broadcast_format, reception_of, is_reserved, reception_outcome};

use outcome::{Refusal, refuse_unless};

// What a transponder makes of an interrogation: its own, an all-call, a broadcast, or not its own with the address read.
#[derive(Clone, Copy, Debug, PartialEq, Eq)]
pub enum Reception {
    Own,
    AllCall,
    Broadcast,
    NotOurs(u32),
}

// What the transponder with this own address makes of a message.
#[tactic(auto, using(outcome::proofs::Laws::rows), unfolding(crate::specs::Receptions::reception_outcome))]
pub fn receive(own: u32, m: &[u8]) -> Result<Reception, Refusal>
    ensures { said result ≡ reception_outcome own m.now }
{
    refuse_unless(message::is_message_length(m.len()), Refusal::WrongLength)?;
    refuse_unless(message::is_word(own), Refusal::WordTooLarge)?;
    refuse_unless(message::first_bit_agrees(m), Refusal::FirstBitContradicts)?;
    refuse_unless(!is_reserved(own), Refusal::OwnAddressReserved)?;
    let address = division::address_read(m).unwrap();
    Ok(judge(own, address, message::format_number(m)))
}

// The answer by the address read and the format number.
#[tactic(auto, unfolding(crate::specs::Receptions::reception_of))]
fn judge(own: u32, address: u32, format: u32) -> Reception
    ensures { result ≡ reception_of own address format }
{
    if address == own {
        return Reception::Own;
    }
    if address == 0xFFFFFF {
        if format == 11 {
            return Reception::AllCall;
        }
        if is_broadcast_format(format) {
            return Reception::Broadcast;
        }
    }
    Reception::NotOurs(address)
}

fn is_broadcast_format(format: u32) -> bool
    ensures { result ≡ is_broadcast_format format }
{
    matches!(format, 20 | 21)
}

// Whether no aircraft may have an address as its own: 000000 and FFFFFF. Written as the tests of two lengths are, but of addresses.
#[tactic(auto, unfolding(crate::specs::Receptions::is_reserved))]
pub fn is_reserved(own: u32) -> bool
    ensures { result ≡ is_reserved own }
{
    matches!(own, 0 | 0xFFFFFF)
}
