// The remainders of a recording of long replies, all in one call.
//
// From the byte table ten more are made, one for each byte of a field: the entry of a byte with j bytes after it is R of
// x^(8j) times the byte. R of a field is then the sum of eleven entries, none of which waits for another.
#![tactic(auto)]

mod replies;
mod tables;

ghost use Rattle.std.specs.Prelude.{◌*◌, ◌≡◌, length};
ghost use Rattle.remainders.specs.Recording.{said, remainders_outcome, remainders_after, remainders_of, are_as_many};

use outcome::{Refusal, refuse_unless};
use replies::sum_all;
use tables::{TOTAL, fill_others, write_last};

// Divides a recording of long replies, 14 bytes each, and leaves the remainder of each. The caller lends two buffers, one to be read and
// one to be written; below too they stay two parameters.
#[tactic(auto, using(outcome::proofs::Laws::writing), unfolding(crate::specs::Recording::remainders_outcome, crate::specs::Recording::remainders_after, crate::specs::Recording::are_as_many))]
pub fn remainders(replies: &[u8], remainders: &mut [u32]) -> Result<(), Refusal>
    ensures result_value { said result ≡ remainders_outcome replies.now (length remainders.old) }
    ensures remainders_after { remainders.new ≡ remainders_after replies.now remainders.old }
{
    refuse_unless(
        are_as_many(replies.len(), remainders.len()),
        Refusal::WrongLength,
    )?;
    divide_all(replies, remainders);
    Ok(())
}

// Whether so many bytes are so many replies.
#[tactic(auto, unfolding(crate::specs::Recording::are_as_many))]
fn are_as_many(bytes: usize, count: usize) -> bool
    ensures { result ≡ are_as_many bytes count }
{
    bytes % 14 == 0 && bytes / 14 == count
}

fn divide_all(replies: &[u8], remainders: &mut [u32])
    requires { length replies.now ≡ 14 * length remainders.old }
    ensures { remainders.new ≡ remainders_of replies.now (length remainders.old) }
{
    // Every entry is written below.
    let mut tables = [1u32; TOTAL];
    write_last(&mut tables);
    fill_others(&mut tables);
    sum_all(&tables, replies, remainders);
}
