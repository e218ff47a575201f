// The page: a line for each name, with the number of printed lines that count for it.
ghost use Rattle.std.specs.Prelude.{◌≤◌, ◌≡◌, ◌<◌, length};
ghost use Rattle.text.specs.Digits.{decimal_text};
ghost use Rattle.text.specs.Output.{Appends};
ghost use Rattle.shift_report.specs.Tally.{page_line, how_many, names, counts, page as page_of};
ghost use Rattle.shift_report.specs.Printed.{printed_rows, rows_in};

use crate::counting::Rows;
use reading::cut;
use text::Output;

// Of what sift printed, of which the header comes first.
#[tactic(auto, using(crate::proofs::Pages::pages, crate::proofs::Counts::counting), unfolding(crate::specs::Printed::printed_rows))]
pub(crate) fn write_page(output: &mut Output<'_>, printed: &[u8])
    requires { length printed.now ≤ 1572928 }
    ensures written { Appends output.old output.new (page_of (printed_rows printed.now)) }
    ensures page_len_bound { length (page_of (printed_rows printed.now)) ≤ 192 }
{
    let (_, text) = cut(printed, b'\n');
    let rows = Rows { text };
    write_line(output, b"lines", rows.count_all());
    write_counts(output, rows);
}

// Those after `lines`, in their order: seven calls and no loop over a list of names, whose definition the proof would have to take apart
// at each turn.
#[tactic(auto, using(crate::proofs::Pages::counts_written))]
fn write_counts(output: &mut Output<'_>, rows: Rows<'_>)
    ensures written { Appends output.old output.new (counts (rows_in rows.entry.text.now) names) }
    ensures counts_len_bound { length (counts (rows_in rows.entry.text.now) names) ≤ 126 }
{
    write_count(output, b"clean", rows);
    write_count(output, b"sole", rows);
    write_count(output, b"several", rows);
    write_count(output, b"dense", rows);
    write_count(output, b"nofit", rows);
    write_count(output, b"refused", rows);
    write_count(output, b"malformed", rows);
}

#[tactic(auto, using(crate::proofs::Counts::counting))]
fn write_count(output: &mut Output<'_>, name: &[u8], rows: Rows<'_>)
    ensures written { Appends output.old output.new (page_line name.now (how_many name.now (rows_in rows.entry.text.now))) }
    ensures number_len_bound { length (decimal_text (how_many name.now (rows_in rows.entry.text.now))) ≤ 10 }
{
    write_line(output, name, rows.count_named(name));
}

// `name number` and the line feed; a number of the lines of a buffer has at most ten digits.
#[tactic(auto, using(text::proofs::Laws::appending, crate::proofs::Pages::ten_digits), unfolding(crate::specs::Tally::page_line))]
fn write_line(output: &mut Output<'_>, name: &[u8], n: usize)
    requires { n < 10000000000 }
    ensures written { Appends output.old output.new (page_line name.now n) }
    ensures n_len_bound { length (decimal_text n) ≤ 10 }
{
    output.put_bytes(name);
    output.put_byte(b' ');
    // Rust has no `From` of a usize for a u64, and a `try_from` would only test again
    output.put_decimal(n as u64);
    output.put_byte(b'\n');
}
