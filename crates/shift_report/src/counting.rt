// Counting in what sift printed: its lines, and those that count for a name.
ghost use Rattle.std.specs.Prelude.{◌+◌, ◌≤◌, ◌≡◌, length};
ghost use Rattle.reading.specs.Lines.{columns, lines};
ghost use Rattle.shift_report.specs.Tally.{same_text, column_at, label, how_many};
ghost use Rattle.shift_report.specs.Printed.{row_of, rows_in};

use reading::{Lines, cut};

// The rows of what sift printed. Its buffer bounds them, so that a number of them has at most ten digits.
#[derive(Clone, Copy)]
pub(crate) struct Rows<'a> {
    pub(crate) text: &'a [u8],
    ghost few: { length text.now ≤ 1572928 },
}

impl Rows<'_> {
    pub(crate) fn count_all(self) -> usize
        ensures value { result ≡ length (lines self.entry.text.now) }
        ensures upper_bound { result ≤ length self.entry.text.now + 1 }
    {
        Lines::new(self.text).count()
    }

    pub(crate) fn count_named(self, name: &[u8]) -> usize
        ensures { result ≡ how_many name.now (rows_in self.entry.text.now) }
    {
        Lines::new(self.text)
            .filter(|line| counts_for(line, name))
            .count()
    }
}

// Whether a line counts for a name: by its answer, and a corrected one by its mark.
#[tactic(auto, using(crate::proofs::Columns::labelling))]
fn counts_for(line: &[u8], name: &[u8]) -> bool
    ensures { result ≡ same_text (label (row_of line.now)) name.now }
{
    let (_, row) = cut(line, b' ');
    let (answer, _) = cut(row, b' ');
    if answer == b"corrected".as_slice() {
        mark(row) == name
    } else {
        answer == name
    }
}

// The fourth column of a row.
#[tactic(auto, using(crate::proofs::Columns::column_fourth))]
fn mark(row: &[u8]) -> &[u8]
    ensures { result.now ≡ column_at (columns row.now) 3 }
{
    let (_, window) = cut(row, b' ');
    let (_, bits) = cut(window, b' ');
    let (_, mark) = cut(bits, b' ');
    cut(mark, b' ').0
}
