// The rows of a buffer put into a text, each as its time line and the lines of the values that changed.
ghost use Rattle.std.specs.Prelude.{◌/◌, ◌≤◌, length};
ghost use Rattle.groups.specs.Constants.{row_width, most_cells};
ghost use Rattle.dump.specs.ways.Putting.{Put};
ghost use Rattle.dump.specs.ways.Places.{changes_to, lines_to};

use crate::lent_row::LentRow;
use crate::text::{put_time, put_value};
use groups::constants::Row;

// The lines of a row's values that changed, in column order.
fn put_changes(text: &mut [u8], at: usize, row: &LentRow<'_>) -> usize
    requires { at ≤ 1152921504606846976 }
    ensures { Put text.old at (changes_to row.now.cells.now row.now.row row_width) text.new result }
{
    let mut end = at;
    for column in 0..Row::WIDTH {
        if let Some(value) = row.changed(column) {
            end = put_value(text, end, column, value);
        }
    }
    end
}

// The lines of all rows.
pub(crate) fn put_rows(text: &mut [u8], at: usize, cells: &[u64]) -> usize
    requires { (at ≤ 65536) × (length cells.now ≤ most_cells) }
    ensures { Put text.old at (lines_to cells.now (length cells.now / row_width)) text.new result }
{
    let mut end = at;
    for row in 0..cells.len() / Row::WIDTH {
        end = put_time(text, end, row);
        end = put_changes(text, end, &LentRow { cells, row });
    }
    end
}
