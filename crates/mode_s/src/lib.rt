// The seals, the transponder, the sensor and the division of a recording for callers in C: numbers and buffers in, one number of
// 64 bits out. The crate mode_s_c exports these calls under the names that C links, where a slice is two arguments, a pointer
// and a length.
//
// Each call is the one of the library below it, and its answer is packed: so each promises that call's definition, packed, and
// the same buffer. include/mode_s.h says what the caller has to promise.
#![tactic(auto)]

ghost use Rattle.std.specs.Prelude.{◌≡◌, length};
ghost use Rattle.outcome.specs.Refusals.{number_of};
ghost use Rattle.encoder.specs.Seals.{seal_outcome, reply_after, interrogation_after};
ghost use Rattle.encoder.specs.Seals.{said as said_seal};
ghost use Rattle.transponder.specs.Receptions.{reception_outcome};
ghost use Rattle.transponder.specs.Receptions.{said as said_reception};
ghost use Rattle.sensor.specs.Verdicts.{sensor_outcome, sensor_after, mark_of};
ghost use Rattle.sensor.specs.Verdicts.{said as said_verdict};
ghost use Rattle.remainders.specs.Recording.{remainders_outcome, remainders_after};
ghost use Rattle.remainders.specs.Recording.{said as said_divided};
ghost use Rattle.mode_s.specs.Packing.{parts, packed};
ghost use Rattle.mode_s.specs.Packing.Source.{seal, transponder, sensor, recording};

use outcome::Refusal;
use sensor::{Correction, Verdict};
use transponder::Reception;

// The reply seal.
pub fn mode_s_seal_reply(message: &mut [u8], word: u32) -> u64
    ensures value { result ≡ packed seal (seal_outcome message.old word) }
    ensures message_after { message.new ≡ reply_after message.old word }
{
    packed_seal(encoder::seal_reply(message, word))
}

// The interrogation seal. C calls the two seals by two names.
pub fn mode_s_seal_interrogation(message: &mut [u8], address: u32) -> u64
    ensures value { result ≡ packed seal (seal_outcome message.old address) }
    ensures message_after { message.new ≡ interrogation_after message.old address }
{
    packed_seal(encoder::seal_interrogation(message, address))
}

// The transponder.
pub fn mode_s_receive(own: u32, message: &[u8]) -> u64
    ensures { result ≡ packed transponder (reception_outcome own message.now) }
{
    packed_reception(transponder::receive(own, message))
}

// The sensor. The confidence buffer is read only.
pub fn mode_s_correct(message: &mut [u8], confidence: &[u8], word: u32, limit: u32) -> u64
    ensures value { result ≡ packed sensor (sensor_outcome message.old confidence.now word limit) }
    ensures message_after { message.new ≡ sensor_after message.old confidence.now word limit }
{
    packed_verdict(sensor::correct(message, confidence, word, limit))
}

// The remainders of a recording of long replies, a word each.
pub fn mode_s_remainders(replies: &[u8], remainders: &mut [u32]) -> u64
    ensures value { result ≡ packed recording (remainders_outcome replies.now (length remainders.old)) }
    ensures remainders_after { remainders.new ≡ remainders_after replies.now remainders.old }
{
    packed_divided(remainders::remainders(replies, remainders))
}

// The number of an answer is one for all calls: C tells by it whose answer it is.
#[tactic(auto, unfolding(crate::specs::Packing::packed))]
fn packed_seal(s: Result<(), Refusal>) -> u64
    ensures { result ≡ packed seal (said_seal s) }
{
    match s {
        Ok(()) => parts(2, 0, 0, 0, 0, 0),
        Err(r) => refused(r),
    }
}

// Every call refuses alike.
fn refused(r: Refusal) -> u64
    ensures { result ≡ parts 1 (number_of r) 0 0 0 0 }
{
    parts(1, u32::from(r), 0, 0, 0, 0)
}

#[tactic(auto, unfolding(crate::specs::Packing::packed))]
fn packed_reception(s: Result<Reception, Refusal>) -> u64
    ensures { result ≡ packed transponder (said_reception s) }
{
    match s {
        Ok(Reception::Own) => parts(3, 0, 0, 0, 0, 0),
        Ok(Reception::AllCall) => parts(4, 0, 0, 0, 0, 0),
        Ok(Reception::NotOurs(a)) => parts(5, 0, 0, 0, 0, a),
        Ok(Reception::Broadcast) => parts(6, 0, 0, 0, 0, 0),
        Err(r) => refused(r),
    }
}

#[tactic(auto, unfolding(crate::specs::Packing::packed))]
fn packed_verdict(s: Result<Verdict, Refusal>) -> u64
    ensures { result ≡ packed sensor (said_verdict s) }
{
    match s {
        Ok(Verdict::Clean) => parts(7, 0, 0, 0, 0, 0),
        Ok(Verdict::Dense(w)) => parts(8, 0, 0, w, 0, 0),
        Ok(Verdict::NoFit) => parts(9, 0, 0, 0, 0, 0),
        Ok(Verdict::Corrected(k)) => packed_correction(k),
        Err(r) => refused(r),
    }
}

// Apart from packed_seal: the definition goes by whose answer it is, and one function for both would take a number in its place and
// need a definition of its own.
#[tactic(auto, unfolding(crate::specs::Packing::packed))]
fn packed_divided(s: Result<(), Refusal>) -> u64
    ensures { result ≡ packed recording (said_divided s) }
{
    match s {
        Ok(()) => parts(11, 0, 0, 0, 0, 0),
        Err(r) => refused(r),
    }
}

fn packed_correction(k: Correction) -> u64
    ensures { result ≡ parts 10 0 (mark_of k.mark) k.window k.bits 0 }
{
    parts(10, 0, u32::from(k.mark), k.window, k.bits, 0)
}

// The six parts, each in its own bits. They come in the order of the definition, by which each call is proved, so that no two can be
// exchanged; a struct of them would name each part at each answer.
#[tactic(auto, unfolding(crate::specs::Packing::parts))]
fn parts(number: u32, refused: u32, mark: u32, window: u32, bits: u32, address: u32) -> u64
    ensures { result ≡ parts number refused mark window bits address }
{
    let n = u64::from(number % 256);
    let f = u64::from(refused % 256);
    let m = u64::from(mark % 256);
    let w = u64::from(window % 256);
    let b = u64::from(bits % 256);
    let a = u64::from(address % 16777216);
    n + f * 256 + m * 65536 + w * 16777216 + b * 4294967296 + a * 1099511627776
}
