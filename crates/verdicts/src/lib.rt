// The sensor's verdict as text: the columns of an output line from the answer to the mark (document 01, 'The program
// sift').
//
// Each function appends to an output, and its contract names the text it appends. `write_verdict` names it by definitions
// of specs/Columns.antt, and its second promise bounds the text: the longest has ` corrected `, two numbers of ten digits
// with a space between them, and ` several`, which are 11 + 21 + 8 bytes.
#![tactic(auto)]

ghost use Rattle.std.specs.Prelude.{◌≤◌, ◌≡◌, [], ◌∷◌, ◌++◌, length};
ghost use Rattle.outcome.specs.Outcomes.Outcome.{refusal};
ghost use Rattle.text.specs.Ascii.{ascii, space};
ghost use Rattle.text.specs.Digits.{decimal_text};
ghost use Rattle.text.specs.Output.{Appends};
ghost use Rattle.sensor.specs.Verdicts.{said, mark_of};
ghost use Rattle.verdicts.specs.Columns.{spaced, outcome_columns, mark_word};

use outcome::Refusal;
use sensor::{Correction, Mark, Verdict};
use text::Output;

// Answer, window or refusal number, bits changed and mark, each after one space.
#[tactic(auto, using(crate::proofs::Texts::verdict_texts))]
pub fn write_verdict(output: &mut Output<'_>, verdict: Result<Verdict, Refusal>)
    ensures written { Appends output.old output.new (spaced (outcome_columns (said verdict))) }
    ensures verdict_len_bound { length (spaced (outcome_columns (said verdict))) ≤ 40 }
{
    match verdict {
        Ok(Verdict::Clean) => output.put_bytes(b" clean - - -"),
        Ok(Verdict::Dense(window)) => write_numbered(output, b" dense ", window),
        Ok(Verdict::NoFit) => output.put_bytes(b" nofit - - -"),
        Ok(Verdict::Corrected(correction)) => write_correction(output, correction),
        Err(refusal) => write_refused(output, u32::from(refusal)),
    }
}

// The columns of a refusal, by its number, which may be any.
#[tactic(auto, using(crate::proofs::Texts::refused_texts))]
pub fn write_refused(output: &mut Output<'_>, n: u32)
    ensures written { Appends output.old output.new (spaced (outcome_columns (refusal n))) }
    ensures n_len_bound { length (spaced (outcome_columns (refusal n))) ≤ 40 }
{
    write_numbered(output, b" refused ", n);
}

// A word and a number; the bits changed and the mark are lacking.
#[tactic(auto, using(text::proofs::Laws::appending))]
fn write_numbered(output: &mut Output<'_>, word: &[u8], n: u32)
    ensures written { Appends output.old output.new (word.now ++ decimal_text n ++ ascii " - -") }
    ensures n_len_bound { length (decimal_text n) ≤ 10 }
{
    write_named(output, word, n);
    output.put_bytes(b" - -");
}

// Word, window, bits changed and mark.
#[tactic(auto, using(text::proofs::Laws::appending, std::proofs::lemmas::Grind::common_steps))]
fn write_correction(output: &mut Output<'_>, correction: Correction)
    ensures written { Appends output.old output.new (ascii " corrected " ++ decimal_text correction.window ++ (space ∷ []) ++ decimal_text correction.bits ++ (space ∷ mark_word (mark_of correction.mark))) }
    ensures window_len_bound { length (decimal_text correction.window) ≤ 10 }
    ensures bits_len_bound { length (decimal_text correction.bits) ≤ 10 }
{
    write_named(output, b" corrected ", correction.window);
    write_named(output, b" ", correction.bits);
    write_mark(output, correction.mark);
}

// The mark, after one space.
#[tactic(auto, unfolding(crate::specs::Columns::mark_word))]
fn write_mark(output: &mut Output<'_>, mark: Mark)
    ensures { Appends output.old output.new (space ∷ mark_word (mark_of mark)) }
{
    match mark {
        Mark::Sole => output.put_bytes(b" sole"),
        Mark::Several => output.put_bytes(b" several"),
    }
}

// A word and then a number, which in 32 bits has at most ten digits.
#[tactic(auto, using(text::proofs::Laws::appending, text::proofs::Laws::ten_digits))]
fn write_named(output: &mut Output<'_>, word: &[u8], n: u32)
    ensures written { Appends output.old output.new (word.now ++ decimal_text n) }
    ensures n_len_bound { length (decimal_text n) ≤ 10 }
{
    output.put_bytes(word);
    output.put_decimal(u64::from(n));
}
