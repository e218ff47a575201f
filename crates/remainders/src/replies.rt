// Each reply's remainder: the sum of eleven entries and the parity field.
//
// Bytes 1 to 4 and 5 to 8 are read as one word each, and so are the last four: the compiler loads each word at once, and takes
// the bytes out of it.
ghost use Rattle.std.specs.Prelude.{◌≤◌, ◌<◌, ◌+◌, ◌*◌, ◌≡◌, length};
ghost use Rattle.remainders.specs.Recording.{remainders_of};
ghost use Rattle.remainders.specs.Entries.{AreTables, four_at, entry_in, entries_in, words_at, sum_of};

use crate::tables::{TOTAL, low_byte};

// The four bytes from a place on.
fn four(s: &[u8], at: usize) -> [u8; 4]
    requires { at + 4 ≤ length s.now }
    ensures { result ≡ four_at s.now at }
{
    [s[at], s[at + 1], s[at + 2], s[at + 3]]
}

// What the table that starts at k has for the lowest byte of a word.
#[tactic(auto, unfolding(crate::specs::Entries::entry_in))]
fn entry(tables: &[u32; TOTAL], word: u32, k: usize) -> u32
    requires { k ≤ 2560 }
    ensures { result ≡ entry_in tables.now word k }
{
    tables[low_byte(word) + k]
}

// What that table and the three after it have for the four bytes of a word.
#[tactic(auto, unfolding(crate::specs::Entries::entries_in))]
fn entries(tables: &[u32; TOTAL], word: u32, k: usize) -> u32
    requires { k ≤ 1024 }
    ensures { result ≡ entries_in tables.now word k }
{
    let first = entry(tables, word, k);
    let second = entry(tables, word / 0x100, k + 256);
    let third = entry(tables, word / 0x10000, k + 512);
    let fourth = entry(tables, word / 0x1000000, k + 768);
    (first ^ second) ^ (third ^ fourth)
}

// The words of a reply: its first eight bytes in two, the ninth and the tenth, and its last four in one.
#[derive(Clone, Copy)]
struct Words {
    first: u32,
    second: u32,
    ninth: u8,
    tenth: u8,
    last: u32,
}

// The words of the reply that starts at a byte.
#[tactic(auto, unfolding(crate::specs::Entries::lowest_first, crate::specs::Entries::highest_first))]
fn words_from(replies: &[u8], from: usize) -> Words
    requires { from + 14 ≤ length replies.now }
    ensures { result ≡ words_at replies.now from }
{
    Words {
        first: u32::from_le_bytes(four(replies, from)),
        second: u32::from_le_bytes(four(replies, from + 4)),
        ninth: replies[from + 8],
        tenth: replies[from + 9],
        last: u32::from_be_bytes(four(replies, from + 10)),
    }
}

// The remainder of a reply.
#[tactic(auto, unfolding(crate::specs::Entries::sum_of))]
fn sum(tables: &[u32; TOTAL], words: Words) -> u32
    ensures { result ≡ sum_of tables.now words.first words.second words.ninth words.tenth words.last }
{
    let eight = entries(tables, words.first, 0) ^ entries(tables, words.second, 1024);
    let two = entry(tables, u32::from(words.ninth), 2048)
        ^ entry(tables, u32::from(words.tenth), 2304);
    let eleventh = entry(tables, words.last / 0x1000000, 2560);
    (eight ^ two) ^ (eleventh ^ (words.last % 0x1000000))
}

// The remainder of every reply.
#[tactic(auto, using(crate::proofs::Listing::divided))]
pub(crate) fn sum_all(tables: &[u32; TOTAL], replies: &[u8], remainders: &mut [u32])
    requires are_tables { AreTables tables.now }
    requires replies_len { length replies.now ≡ 14 * length remainders.old }
    ensures { remainders.new ≡ remainders_of replies.now (length remainders.old) }
{
    for (i, remainder) in remainders.iter_mut().enumerate() {
        *remainder = sum(tables, words_from(replies, 14 * i));
    }
}
