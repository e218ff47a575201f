// The sensor: whether a reply carries the expected word, and if not, the correction that its confidence bits allow.
//
// The call is checked first; then it is clean, or the windows are asked for their density, and then for their fits. What it
// knows of division and of a window's bits are the public functions of those crates and their contracts.
#![tactic(auto)]

ghost use Rattle.std.specs.Prelude.{◌<◌, ◌^◌, ◌≡◌, true, length};
ghost use Rattle.message.specs.Message.{is_message_length};
ghost use Rattle.sensor.specs.Verdicts.{mark_of, said, answered, syndrome, decision_of, decision_answer, decision_message, sensor_outcome, sensor_after};

use outcome::{Refusal, refuse_unless};
use reply::Reply;

mod density;
mod inverting;
mod reply;
mod search;

// Whether the correction applied was the only one possible. Other enums have two cases too, of another meaning.
#[derive(Clone, Copy, Debug, PartialEq, Eq)]
pub enum Mark {
    Sole,
    Several,
}

// The number of the mark.
impl From<Mark> for u32 {
    ghost from_gives = { λ mark n. n ≡ mark_of mark };

    fn from(mark: Mark) -> u32 {
        match mark {
            Mark::Sole => 1,
            Mark::Several => 2,
        }
    }
}

// A correction: the window that it was found in, the number of message bits inverted, and whether it was the only one. Other structs have
// three fields too, of another meaning.
#[derive(Clone, Copy, Debug, PartialEq, Eq)]
pub struct Correction {
    pub window: u32,
    pub bits: u32,
    pub mark: Mark,
}

// What the sensor says of a reply.
#[derive(Clone, Copy, Debug, PartialEq, Eq)]
pub enum Verdict {
    Clean,
    Dense(u32),
    NoFit,
    Corrected(Correction),
}

// Says what a reply is, and corrects it where its low-confidence bits allow.
#[tactic(auto, using(outcome::proofs::Laws::writing, message::proofs::Laws::words, crate::proofs::Deciding::decision_left), unfolding(crate::specs::Verdicts::sensor_outcome, crate::specs::Verdicts::sensor_after, crate::specs::Verdicts::checked))]
pub fn correct(m: &mut [u8], c: &[u8], word: u32, limit: u32) -> Result<Verdict, Refusal>
    ensures result_value { said result ≡ sensor_outcome m.old c.now word limit }
    ensures m_after { m.new ≡ sensor_after m.old c.now word limit }
{
    refuse_unless(message::is_message_length(m.len()), Refusal::WrongLength)?;
    refuse_unless(c.len() == m.len(), Refusal::WrongConfidenceLength)?;
    refuse_unless(message::is_word(word), Refusal::WordTooLarge)?;
    refuse_unless(limit <= 24, Refusal::LimitTooLarge)?;
    Ok(judge(m, c, word, limit))
}

// The decision on a call that is not refused.
#[tactic(auto, using(crate::proofs::Deciding::deciding), unfolding(crate::specs::Verdicts::decision_of))]
fn judge(m: &mut [u8], c: &[u8], word: u32, limit: u32) -> Verdict
    requires m_value { is_message_length (length m.old) ≡ true }
    requires c_len { length c.now ≡ length m.old }
    requires word_bound { word < 2 ^ 24 }
    ensures result_value { answered result ≡ decision_answer m.old (syndrome m.old word) (decision_of m.old c.now word limit) }
    ensures m_after { m.new ≡ decision_message m.old (syndrome m.old word) (decision_of m.old c.now word limit) }
{
    let syndrome = syndrome(m, word);
    if syndrome == 0 {
        return Verdict::Clean;
    }
    let reply = Reply {
        message: m,
        marks: c,
    };
    if let Some(place) = reply.highest_dense(limit) {
        return Verdict::Dense(reply.number_at(place));
    }
    let Some(fit) = reply.lowest_fit(syndrome) else {
        return Verdict::NoFit;
    };
    let window = reply.number_at(fit.place);
    fit.invert(m);
    Verdict::Corrected(Correction {
        window,
        bits: fit.pattern.count_ones(),
        mark: fit.mark,
    })
}

// The remainder of a reply, and the word added: 0 where the reply carries the word.
#[tactic(auto, unfolding(crate::specs::Verdicts::syndrome))]
fn syndrome(m: &[u8], word: u32) -> u32
    requires { is_message_length (length m.now) ≡ true }
    ensures { result ≡ syndrome m.now word }
{
    division::message_remainder(m).unwrap() ^ word
}
