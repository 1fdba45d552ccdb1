// Rows of a dump that a text begins with.
ghost use Rattle.std.specs.Prelude.{◌≡◌, ◌++◌, ◌*◌, ◌≤◌, length, drop};
ghost use Rattle.groups.specs.Constants.{row_width, most_rows};
ghost use Rattle.theory_dumps.specs.ways.Undump.{read_changes, no_values, read_rows};
ghost use Rattle.rows.specs.records.Buffers.{flat};
ghost use Rattle.dump.specs.ways.Undumping.{few_rows};
ghost use Rattle.dump.specs.ways.Reading.{with_rest, timed_row, how_many, count_of, rows_behind, the_rows, Storable};

use crate::read::{after_time, after_value};
use crate::scan::line_from;
use field::felt::Felt;
use groups::constants::Row;
use rows::records::row::copy_in;

// Behind the values of a row whose time line was read, which are put over those before: by the next line's column at once, since the
// columns between have none.
fn after_changes<'a>(text: &'a [u8], row: &mut [u64; 49]) -> Option<&'a [u8]>
    ensures { with_rest row.new result ≡ read_changes 0 row.old text.now }
{
    let mut rest = text;
    let mut column = 0;
    // By `while`: each line says how far it goes.
    while let Some(line) = line_from(rest, column) {
        rest = after_value(rest, line, row[line.column])?;
        row[line.column] = line.value;
        column = line.column + 1;
    }
    Some(rest)
}

// Behind a row with its time line, which is put over the values before.
#[tactic(auto, unfolding(crate::specs::ways::Reading::timed_row))]
pub(crate) fn after_row<'a>(text: &'a [u8], number: usize, row: &mut [u64; 49]) -> Option<&'a [u8]>
    requires { number ≤ most_rows }
    ensures { with_rest row.new result ≡ timed_row number row.old text.now }
{
    let lines = after_time(text, number)?;
    after_changes(lines, row)
}

// How many rows a text is, up to its end, where they are not too many.
pub(crate) fn count_rows(text: &[u8]) -> Option<usize>
    ensures { count_of result ≡ how_many (few_rows (read_rows (length text.now) 0 no_values text.now)) }
{
    let mut row = [Felt::MODULUS; 49];
    let mut rest = text;
    let mut number = 0;
    // By `while`: each row says how far it goes.
    while !rest.is_empty() {
        rest = after_row(rest, number, &mut row)?;
        if number == Row::MOST {
            return None;
        }
        number += 1;
    }
    Some(number)
}

// Stores the rows of a good text.
pub(crate) fn store_rows(text: &[u8], rows: usize, cells: &mut [u64])
    requires { Storable text.now rows (length cells.old) }
    ensures { cells.new ≡ flat (the_rows (rows_behind text.now)) ++ drop (row_width * rows) cells.old }
{
    let mut row = [Felt::MODULUS; 49];
    let mut rest = text;
    for number in 0..rows {
        rest = after_row(rest, number, &mut row).unwrap();
        copy_in(cells, Row::WIDTH * number, &row);
    }
}
