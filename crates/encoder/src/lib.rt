// The encoders of the parity field: the reply seal for a word and the interrogation seal for an address.
//
// Both check the call first, with no byte touched, and then hand the last three bytes alone to the writer of the parity
// field. What they know of division are its public functions and their contracts.
#![tactic(auto)]

ghost use Rattle.std.specs.Prelude.{◌<◌, ◌^◌, ◌≡◌, true, length};
ghost use Rattle.std.specs.Int.Bits.{bit_xor};
ghost use Rattle.outcome.specs.Outcomes.{admission};
ghost use Rattle.division.specs.Division.{parity, overlay};
ghost use Rattle.message.specs.Message.{number, is_message_length, is_field_length};
ghost use Rattle.message.specs.Message.{field as message_field};
ghost use Rattle.encoder.specs.Seals.{said, word_bytes, with_parity, seal_outcome, reply_after, interrogation_after};

use outcome::{Refusal, refuse_unless};

// Writes the parity field of a reply for the word: R + word. Message and word stay two parameters, here and below: the one is lent
// to be written, and what the two are together is said by the rows of `check` alone.
#[tactic(auto, using(outcome::proofs::Laws::writing, crate::proofs::Sealing::accepting), unfolding(crate::specs::Seals::reply_after, crate::specs::Seals::reply_seal, crate::specs::Seals::reply_parity))]
pub fn seal_reply(m: &mut [u8], word: u32) -> Result<(), Refusal>
    ensures result_value { said result ≡ seal_outcome m.old word }
    ensures m_after { m.new ≡ reply_after m.old word }
{
    check(m, word)?;
    write_parity(m, word);
    Ok(())
}

// Writes the parity field of an interrogation for the address: R + the upper half of address·G.
#[tactic(auto, using(outcome::proofs::Laws::writing, crate::proofs::Sealing::accepting), unfolding(crate::specs::Seals::interrogation_after, crate::specs::Seals::interrogation_seal, crate::specs::Seals::interrogation_parity))]
pub fn seal_interrogation(m: &mut [u8], address: u32) -> Result<(), Refusal>
    ensures result_value { said result ≡ seal_outcome m.old address }
    ensures m_after { m.new ≡ interrogation_after m.old address }
{
    check(m, address)?;
    write_parity(m, division::uplink_overlay(address).unwrap());
    Ok(())
}

// Whether a seal is refused, and by which row.
#[tactic(auto, using(outcome::proofs::Laws::rows), unfolding(crate::specs::Seals::seal_outcome))]
fn check(m: &[u8], word: u32) -> Result<(), Refusal>
    ensures { admission result ≡ seal_outcome m.now word }
{
    refuse_unless(message::is_message_length(m.len()), Refusal::WrongLength)?;
    refuse_unless(message::is_word(word), Refusal::WordTooLarge)?;
    refuse_unless(message::first_bit_agrees(m), Refusal::FirstBitContradicts)
}

// R + word in the parity field.
#[tactic(auto, using(crate::proofs::Sealing::sealing))]
fn write_parity(m: &mut [u8], word: u32)
    requires m_value { is_message_length (length m.old) ≡ true }
    requires word_bound { word < 2 ^ 24 }
    ensures { m.new ≡ with_parity m.old (bit_xor (parity (number (message_field m.old))) word) }
{
    let at = m.len() - 3;
    let r = division::parity_by_folding(&m[..at]).unwrap();
    write_word(&mut m[at..], r ^ word);
}

// The writer of the parity field: it is lent the last three bytes of the message.
#[tactic(auto, unfolding(crate::specs::Seals::word_bytes))]
fn write_word(parity_field: &mut [u8], word: u32)
    requires parity_field_len { length parity_field.old ≡ 3 }
    requires word_bound { word < 2 ^ 24 }
    ensures { parity_field.new ≡ word_bytes word }
{
    parity_field.copy_from_slice(&word.to_be_bytes()[1..]);
}
