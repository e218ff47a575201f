// What is held between two pieces of a recording, and the calls that change it: each byte of a piece is kept, or it ends a
// line, which is answered.
//
// The last promise of each function bounds the output: 62 bytes for each byte of the piece, and 24 for each byte kept, which are
// paid back when the line is answered (src/lib.rt).
ghost use Rattle.std.specs.Prelude.{◌+◌, ◌*◌, ◌≤◌, ◌<◌, ◌≡◌, true, false, [], ◌∷◌, ◌++◌, length, take, drop, MatchResult, IfOk, IfErr, Some};
ghost use Rattle.text.specs.Output.{Appends};
ghost use Rattle.report.specs.Sift.{header, output_line};
ghost use Rattle.stream.specs.Stream.{held, held_by, held_after_byte, printed_at_byte, held_after, printed, printed_at_end, is_refused, refusal_of, feed_text, feed_held, finish_text};

use text::Output;

// Why a call is refused: 2^63 lines have ended, or the piece is too long for the output buffer. An enum of its own, since neither
// is a row of the table that `outcome::Refusal` has.
#[derive(Clone, Copy, Debug, PartialEq, Eq)]
pub enum Refused {
    TooManyLines,
    PieceTooLong,
}

// How many lines have ended, and of the line that has begun the first bytes of `kept`, as many as `size` says. The fields take
// any values: where `size` names more bytes than there are, all are kept.
#[derive(Clone, Copy, Debug, PartialEq, Eq)]
pub struct State {
    pub ended: u64,
    // an array with its size beside it, and not a list of at most 68 bytes, which would ask more of who makes a state
    pub kept: [u8; 68],
    pub size: usize,
}

impl State {
    // The header, and the state before the first piece. The answer has the number of bytes at the start of the buffer: a length, here and
    // below, as report::sift answers.
    #[tactic(auto, using(text::proofs::Laws::at_start))]
    pub fn begin(out: &mut [u8; 255616]) -> (State, usize)
        ensures state_value { held_by result.0 ≡ (0, []) }
        ensures taken_value { result.1 ≡ length header }
        ensures out_after { out.new ≡ header ++ drop (length header) out.old }
        ensures taken_in_bounds { (result.1 ≤ length out.new) × (result.1 ≡ length (take result.1 out.new)) }
    {
        let mut output = Output::new(out);
        output.put_bytes(b"line answer window bits mark message\n");
        let state = State {
            ended: 0,
            kept: [0; 68],
            size: 0,
        };
        (state, output.taken)
    }

    // Answers the lines that end in a piece of at most 4,096 bytes. The output stands at the start of the buffer, whose other
    // bytes stay; the answer is its length. A call that is refused leaves all as it was. The last promise follows from the
    // others: with it a caller lends `&out[..taken]` without a proof.
    #[tactic(auto, using(text::proofs::Laws::at_start, crate::proofs::Refusing::refusing, std::proofs::lemmas::Grind::common_steps))]
    pub fn feed(&mut self, piece: &[u8], out: &mut [u8; 255616]) -> Result<usize, Refused>
        ensures refused_value { MatchResult result (λ _. is_refused self.old.ended piece.now ≡ false) (λ _. is_refused self.old.ended piece.now ≡ true) }
        ensures refused_by { IfErr result (λ r. refusal_of self.old.ended piece.now ≡ Some r) }
        ensures refused_unchanged { IfErr result (λ _. self.new ≡ self.old) }
        ensures state_value { held_by self.new ≡ feed_held (held_by self.old) piece.now }
        ensures out_after { out.new ≡ feed_text (held_by self.old) piece.now ++ drop (length (feed_text (held_by self.old) piece.now)) out.old }
        ensures taken_value { IfOk result (λ taken. taken ≡ length (feed_text (held_by self.old) piece.now)) }
        ensures taken_in_bounds { IfOk result (λ taken. (taken ≤ length out.new) × (taken ≡ length (take taken out.new))) }
    {
        admit(self.ended, piece)?;
        let mut output = Output::new(out);
        let mut line = Output {
            buffer: &mut self.kept,
            taken: self.size,
        };
        self.ended = take_piece(self.ended, &mut line, piece, &mut output);
        self.size = line.taken;
        Ok(output.taken)
    }

    // Answers the last line, where it has a byte and no line feed.
    #[tactic(auto, using(text::proofs::Laws::at_start, crate::proofs::Refusing::refusing, std::proofs::lemmas::Grind::common_steps))]
    pub fn finish(&self, out: &mut [u8; 255616]) -> Result<usize, Refused>
        ensures refused_value { MatchResult result (λ _. is_refused self.now.ended [] ≡ false) (λ _. is_refused self.now.ended [] ≡ true) }
        ensures refused_by { IfErr result (λ r. refusal_of self.now.ended [] ≡ Some r) }
        ensures out_after { out.new ≡ finish_text (held_by self.now) ++ drop (length (finish_text (held_by self.now))) out.old }
        ensures taken_value { IfOk result (λ taken. taken ≡ length (finish_text (held_by self.now))) }
        ensures taken_in_bounds { IfOk result (λ taken. (taken ≤ length out.new) × (taken ≡ length (take taken out.new))) }
    {
        admit(self.ended, b"")?;
        let mut output = Output::new(out);
        self.write_last(&mut output);
        Ok(output.taken)
    }

    // 'A last piece without a line feed is a line if it has a byte.'
    #[tactic(auto, using(crate::proofs::Printing::end_steps, crate::proofs::Keeping::line_taken, std::proofs::lemmas::Grind::common_steps))]
    fn write_last(&self, output: &mut Output<'_>)
        requires { self.now.ended < 9223372036854775808 }
        ensures written { Appends output.old output.new (printed_at_end (held_by self.now)) }
        ensures printed_len_bound { length (printed_at_end (held_by self.now)) ≤ 1670 }
    {
        let line = &self.kept[..self.size.min(68)];
        if !line.is_empty() {
            write_line(output, self.ended + 1, line);
        }
    }
}

// All bytes of a piece. The line that has begun is an output too: a byte is appended to it, and a full one stays as it is.
#[tactic(auto, using(crate::proofs::Printing::piece_steps))]
fn take_piece(start: u64, line: &mut Output<'_>, piece: &[u8], output: &mut Output<'_>) -> u64
    requires line_length { length line.old.buffer.now ≡ 68 }
    requires piece_len_bound { length piece.now ≤ 4096 }
    requires start_bound { start < 9223372036854775808 }
    ensures same_line { line.new.buffer.ghost_name ≡ line.old.buffer.ghost_name }
    ensures state_value { held result line.new.buffer.now line.new.taken ≡ held_after (held start line.old.buffer.now line.old.taken) piece.now }
    ensures written { Appends output.old output.new (printed (held start line.old.buffer.now line.old.taken) piece.now) }
    ensures printed_len_bound { length (printed (held start line.old.buffer.now line.old.taken) piece.now) ≤ 24 * length (held start line.old.buffer.now line.old.taken).1 + 62 * length piece.now }
{
    let mut ended = start;
    for &b in piece {
        ended = take_byte(ended, line, b, output);
    }
    ended
}

#[tactic(auto, using(crate::proofs::Printing::byte_steps, crate::proofs::Keeping::keeping, crate::proofs::Keeping::line_taken, std::proofs::lemmas::Grind::common_steps), unfolding(text::specs::Output::append, text::specs::Output::append_byte))]
fn take_byte(ended: u64, line: &mut Output<'_>, b: u8, output: &mut Output<'_>) -> u64
    requires line_length { length line.old.buffer.now ≡ 68 }
    requires ended_bound { ended < 9223372036854779904 }
    ensures ended_bound { result ≤ ended + 1 }
    ensures same_line { (line.new.buffer.ghost_name ≡ line.old.buffer.ghost_name) × (length line.new.buffer.now ≡ 68) }
    ensures state_value { held result line.new.buffer.now line.new.taken ≡ held_after_byte (held ended line.old.buffer.now line.old.taken) b }
    ensures written { Appends output.old output.new (printed_at_byte (held ended line.old.buffer.now line.old.taken) b) }
    ensures printed_len_bound { length (printed_at_byte (held ended line.old.buffer.now line.old.taken) b) + 24 * length (held result line.new.buffer.now line.new.taken).1 ≤ 24 * length (held ended line.old.buffer.now line.old.taken).1 + 62 }
{
    if b == b'\n' {
        write_line(output, ended + 1, line.bytes());
        line.taken = 0;
        ended + 1
    } else {
        line.put_byte(b);
        ended
    }
}

#[tactic(auto, using(crate::proofs::Refusing::admitting), unfolding(crate::specs::Stream::refusal_of))]
fn admit(ended: u64, piece: &[u8]) -> Result<(), Refused>
    ensures refused_value { MatchResult result (λ _. is_refused ended piece.now ≡ false) (λ _. is_refused ended piece.now ≡ true) }
    ensures refused_by { IfErr result (λ r. refusal_of ended piece.now ≡ Some r) }
{
    if ended >= 9223372036854775808 {
        return Err(Refused::TooManyLines);
    }
    if piece.len() > 4096 {
        return Err(Refused::PieceTooLong);
    }
    Ok(())
}

// A line's number, of at most 19 digits, and its answer.
#[tactic(auto, using(text::proofs::Laws::appending, crate::proofs::Printing::line_steps))]
fn write_line(output: &mut Output<'_>, number: u64, line: &[u8])
    requires { number < 10000000000000000000 }
    ensures written { Appends output.old output.new (output_line number line.now) }
    ensures line_len_bound { length (output_line number line.now) ≤ 38 + 24 * length line.now }
{
    output.put_decimal(number);
    report::write_answer(output, line);
}
