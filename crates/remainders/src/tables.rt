// Eleven tables in a row, each of 256 entries: the first for the first byte of a field, the last, the byte table itself, for the
// last byte. Each is made from the one after it, by a step of the byte table.
ghost use Rattle.std.specs.Prelude.{◌<◌, ◌%◌, ◌≡◌};
ghost use Rattle.remainders.specs.Entries.{HasLast, AreTables};

// One array, and not eleven in one: a place in it is one number, by which the rule of every entry and each contract go.
pub(crate) const TOTAL: usize = 2816;

// Where the last table starts.
const LAST: usize = 2560;

// The byte table, in the last place.
#[tactic(auto, using(crate::proofs::Filling::written))]
pub(crate) fn write_last(tables: &mut [u32; TOTAL])
    ensures { HasLast tables.new }
{
    tables[LAST..].copy_from_slice(&division::byte_remainders());
}

// The others, from the last entry of the tenth down to the first of the first.
#[tactic(auto, using(crate::proofs::Filling::filled))]
pub(crate) fn fill_others(tables: &mut [u32; TOTAL])
    requires { HasLast tables.old }
    ensures { AreTables tables.new }
{
    for at in (0..LAST).rev() {
        let after = tables[at + 256];
        let leaving = low_byte(after / 0x10000);
        let staying = after % 0x10000 * 256;
        tables[at] = staying ^ tables[leaving + LAST];
    }
}

// The lowest byte of a word, as an index.
pub(crate) fn low_byte(word: u32) -> usize
    ensures value { result ≡ word % 256 }
    ensures upper_bound { result < 256 }
{
    let [lowest, ..] = word.to_le_bytes();
    usize::from(lowest)
}
