// R by the table of 88 remainders, one for each bit of a long field (ATC-40, Table II): the rows are added where the field
// has ones.
ghost use Rattle.std.specs.Prelude.{◌≤◌, ◌-◌, ◌*◌, ◌≡◌, length};
ghost use Rattle.division.specs.Ways.{rows_from, row_sum};
ghost use Rattle.message.specs.Message.{number};
ghost use Rattle.division.specs.Tables.{IsRowTable};
ghost use Rattle.division.specs.Answers.{said, parity_answer};

use message::is_field_length;
use outcome::{Refusal, refuse_unless};

// The row for bit 73 is the one of ATC-40's errata sheet.
const ROWS: [u32; 88] = [
    0x3935EA, 0x1C9AF5, 0xF1B77E, 0x78DBBF, 0xC397DB, 0x9E31E9, 0xB0E2F0, 0x587178, 0x2C38BC,
    0x161C5E, 0x0B0E2F, 0xFA7D13, 0x82C48D, 0xBE9842, 0x5F4C21, 0xD05C14, 0x682E0A, 0x341705,
    0xE5F186, 0x72F8C3, 0xC68665, 0x9CB936, 0x4E5C9B, 0xD8D449, 0x939020, 0x49C810, 0x24E408,
    0x127204, 0x093902, 0x049C81, 0xFDB444, 0x7EDA22, 0x3F6D11, 0xE04C8C, 0x702646, 0x381323,
    0xE3F395, 0x8E03CE, 0x4701E7, 0xDC7AF7, 0x91C77F, 0xB719BB, 0xA476D9, 0xADC168, 0x56E0B4,
    0x2B705A, 0x15B82D, 0xF52612, 0x7A9309, 0xC2B380, 0x6159C0, 0x30ACE0, 0x185670, 0x0C2B38,
    0x06159C, 0x030ACE, 0x018567, 0xFF38B7, 0x80665F, 0xBFC92B, 0xA01E91, 0xAFF54C, 0x57FAA6,
    0x2BFD53, 0xEA04AD, 0x8AF852, 0x457C29, 0xDD4410, 0x6EA208, 0x375104, 0x1BA882, 0x0DD441,
    0xF91024, 0x7C8812, 0x3E4409, 0xE0D800, 0x706C00, 0x383600, 0x1C1B00, 0x0E0D80, 0x0706C0,
    0x038360, 0x01C1B0, 0x00E0D8, 0x00706C, 0x003836, 0x001C1B, 0xFFF409,
];
// The same where it is lent: a `const` is copied at each use.
static LENT_ROWS: [u32; 88] = ROWS;

// The sum of the rows for the ones of a byte, whose first bit has the row `at`.
#[tactic(auto, using(crate::proofs::Fields::row_steps))]
fn rows_of_byte(rows: &[u32; 88], at: usize, byte: u8) -> u32
    requires row_table { IsRowTable rows.now }
    requires at_bound { at ≤ 80 }
    ensures { result ≡ rows_from (80 - at) 8 byte }
{
    let bits = u32::from(byte);
    let mut sum: u32 = 0;
    // A bit negated is a mask of ones or of zeros: a product with it, or a choice by it, is compiled to jumps.
    for (taken, &row) in rows[at..at + 8].iter().enumerate() {
        let bit = (bits >> (7 - taken)) % 2;
        sum ^= row & bit.wrapping_neg();
    }
    sum
}

// The sum of the rows for the ones of a field of at most 88 bits, which uses the last rows.
#[tactic(auto, using(crate::proofs::Fields::row_steps), unfolding(crate::specs::Ways::row_sum))]
fn by_rows(rows: &[u32; 88], field: &[u8]) -> u32
    requires row_table { IsRowTable rows.now }
    requires field_len_bound { length field.now ≤ 11 }
    ensures { result ≡ row_sum (8 * length field.now) (number field.now) }
{
    let first = 88 - 8 * field.len();
    let mut sum: u32 = 0;
    for (i, &byte) in field.iter().enumerate() {
        // The place, and no chunk of eight rows: by it the clause of rows_of_byte says which remainders they are.
        let at = first + 8 * i;
        sum ^= rows_of_byte(rows, at, byte);
    }
    sum
}

// R of a field, by rows added for its ones. Two lines, as parity_by_register, which says why they are written out.
#[tactic(auto, using(outcome::proofs::Laws::rows, crate::proofs::Fields::ways, crate::proofs::Table::rows_rule), unfolding(crate::specs::Answers::parity_answer))]
pub fn parity_by_rows(field: &[u8]) -> Result<u32, Refusal>
    ensures { said result ≡ parity_answer field.now }
{
    refuse_unless(is_field_length(field.len()), Refusal::WrongLength)?;
    Ok(by_rows(&LENT_ROWS, field))
}
