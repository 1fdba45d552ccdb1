// Reading a dump.
ghost use Rattle.std.specs.Prelude.{◌≡◌};
ghost use Rattle.groups.specs.Answer.{refusal, values};
ghost use Rattle.groups.specs.Refusals.{told};
ghost use Rattle.theory_dumps.specs.ways.Undump.{no_values, has_all};
ghost use Rattle.dump.specs.Dumping.{ReadsDump};
ghost use Rattle.dump.specs.ways.Undumping.{few_rows};
ghost use Rattle.dump.specs.ways.Reading.{timed_row, whole_first, rows_behind, how_many, count_of};

use crate::header::after_header;
use crate::read_rows::{after_row, count_rows, store_rows};
use field::felt::Felt;
use groups::constants::Row;
use groups::refusal::Refusal;
use rows::records::buffer::buffer_wrong;

// Whether every column has a value.
fn has_all(values: &[u64]) -> bool
    ensures { result ≡ has_all values.now }
{
    values.iter().all(|value| *value < Felt::MODULUS)
}

// Whether there is a first row with all values.
fn whole_first(text: &[u8]) -> bool
    ensures { result ≡ whole_first (timed_row 0 no_values text.now) }
{
    let mut row = [Felt::MODULUS; 49];
    match after_row(text, 0, &mut row) {
        Some(_) => has_all(&row),
        None => false,
    }
}

// How many rows a text behind a header is, where it is one that the writer gives.
fn good_rows(text: &[u8]) -> Option<usize>
    ensures { count_of result ≡ how_many (few_rows (rows_behind text.now)) }
{
    if !whole_first(text) {
        return None;
    }
    count_rows(text)
}

// Reads a dump that is written here back into cells, and answers its rows. Refusals: 11 for a buffer of wrong length, 29 for a text that the
// writer does not give, then 11 for a buffer too short. A refusal changes nothing, and the cells behind the rows stay.
pub fn read_dump(text: &[u8], cells: &mut [u64]) -> Result<usize, Refusal>
    ensures { ReadsDump text.now cells.old (refusal (told result)) (values 0 (told result)) cells.new }
{
    if buffer_wrong(cells.len()) {
        return Err(Refusal::BadLength);
    }
    let Some(lines) = after_header(text) else {
        return Err(Refusal::NoDump);
    };
    let Some(rows) = good_rows(lines) else {
        return Err(Refusal::NoDump);
    };
    if cells.len() / Row::WIDTH < rows {
        return Err(Refusal::BadLength);
    }
    store_rows(lines, rows, cells);
    Ok(rows)
}
