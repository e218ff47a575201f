// The five calls of the C interface under the names that C links: each is the call of mode_s, with its promises.
//
// A static library exports them, and mode_s, which other crates may use, does not.
#![tactic(auto)]

ghost use Rattle.std.specs.Prelude.{◌≡◌, length};
ghost use Rattle.encoder.specs.Seals.{seal_outcome, reply_after, interrogation_after};
ghost use Rattle.transponder.specs.Receptions.{reception_outcome};
ghost use Rattle.sensor.specs.Verdicts.{sensor_outcome, sensor_after};
ghost use Rattle.remainders.specs.Recording.{remainders_outcome, remainders_after};
ghost use Rattle.mode_s.specs.Packing.{packed};
ghost use Rattle.mode_s.specs.Packing.Source.{seal, transponder, sensor, recording};

// The reply seal.
#[unsafe(no_mangle)]
pub extern "C" fn mode_s_seal_reply(message: &mut [u8], word: u32) -> u64
    ensures value { result ≡ packed seal (seal_outcome message.old word) }
    ensures message_after { message.new ≡ reply_after message.old word }
{
    mode_s::mode_s_seal_reply(message, word)
}

// The interrogation seal. C calls the two seals by two names.
#[unsafe(no_mangle)]
pub extern "C" fn mode_s_seal_interrogation(message: &mut [u8], address: u32) -> u64
    ensures value { result ≡ packed seal (seal_outcome message.old address) }
    ensures message_after { message.new ≡ interrogation_after message.old address }
{
    mode_s::mode_s_seal_interrogation(message, address)
}

// The transponder.
#[unsafe(no_mangle)]
pub extern "C" fn mode_s_receive(own: u32, message: &[u8]) -> u64
    ensures { result ≡ packed transponder (reception_outcome own message.now) }
{
    mode_s::mode_s_receive(own, message)
}

// The sensor. The confidence buffer is read only.
#[unsafe(no_mangle)]
pub extern "C" fn mode_s_correct(
    message: &mut [u8],
    confidence: &[u8],
    word: u32,
    limit: u32,
) -> u64
    ensures value { result ≡ packed sensor (sensor_outcome message.old confidence.now word limit) }
    ensures message_after { message.new ≡ sensor_after message.old confidence.now word limit }
{
    mode_s::mode_s_correct(message, confidence, word, limit)
}

// The remainders of a recording of long replies, a word each.
#[unsafe(no_mangle)]
pub extern "C" fn mode_s_remainders(replies: &[u8], remainders: &mut [u32]) -> u64
    ensures value { result ≡ packed recording (remainders_outcome replies.now (length remainders.old)) }
    ensures remainders_after { remainders.new ≡ remainders_after replies.now remainders.old }
{
    mode_s::mode_s_remainders(replies, remainders)
}
