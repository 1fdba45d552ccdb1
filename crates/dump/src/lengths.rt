// How many bytes the lines of a buffer take. Each function counts what one of `lines` writes, and has its own promise; nothing is written to count.
ghost use Rattle.std.specs.Prelude.{◌≡◌, ◌/◌, ◌≤◌, length};
ghost use Rattle.groups.specs.Constants.{row_width, most_cells};
ghost use Rattle.theory_dumps.specs.Numerals.{binary, decimal};
ghost use Rattle.dump.specs.ways.Places.{changes_to, lines_to};

use crate::lent_row::LentRow;
use groups::constants::Row;

// How many binary digits a value has; 0 has one.
fn binary_digits(value: u64) -> usize
    ensures { result ≡ length (binary value) }
{
    value.max(1).ilog2() as usize + 1
}

// How many decimal digits a number has; 0 has one.
fn decimal_digits(number: u64) -> usize
    ensures { result ≡ length (decimal number) }
{
    number.max(1).ilog10() as usize + 1
}

// The bytes of the lines of a row's values that changed.
fn changes_bytes(row: &LentRow<'_>) -> usize
    ensures { result ≡ length (changes_to row.now.cells.now row.now.row row_width) }
{
    let mut bytes = 0;
    for column in 0..Row::WIDTH {
        if let Some(value) = row.changed(column) {
            bytes += 4 + binary_digits(value);
        }
    }
    bytes
}

// The bytes of the lines of all rows.
pub(crate) fn rows_bytes(cells: &[u64]) -> usize
    requires { length cells.now ≤ most_cells }
    ensures { result ≡ length (lines_to cells.now (length cells.now / row_width)) }
{
    let mut bytes = 0;
    for row in 0..cells.len() / Row::WIDTH {
        bytes += 2 + decimal_digits(row as u64);
        bytes += changes_bytes(&LentRow { cells, row });
    }
    bytes
}
