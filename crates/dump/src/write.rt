// Writing a dump.
ghost use Rattle.std.specs.Prelude.{◌≡◌, ◌≤◌, length};
ghost use Rattle.groups.specs.Constants.{row_width, most_cells};
ghost use Rattle.groups.specs.Refusals.{told};
ghost use Rattle.theory_dumps.specs.Dumps.{dump};
ghost use Rattle.dump.specs.Dumping.{rows_wrong, dumping, text_after};
ghost use Rattle.dump.specs.ways.Putting.{Put};

use crate::header::{HEADER_BYTES, put_header};
use crate::lengths::rows_bytes;
use crate::lines::put_rows;
use groups::constants::Row;
use groups::refusal::Refusal;
use rows::records::buffer::buffer_wrong;

// Refusal 11.
#[tactic(auto, unfolding(crate::specs::Dumping::rows_wrong))]
fn rows_wrong(cells: usize) -> bool
    ensures { result ≡ rows_wrong cells }
{
    buffer_wrong(cells) || cells < Row::WIDTH
}

// How many bytes the dump of a buffer takes.
fn dump_bytes(cells: &[u64]) -> usize
    requires { (row_width ≤ length cells.now) × (length cells.now ≤ most_cells) }
    ensures { result ≡ length (dump cells.now) }
{
    HEADER_BYTES + rows_bytes(cells)
}

// Puts the dump of a buffer at the start of a text and answers its bytes.
fn put_dump(cells: &[u64], text: &mut [u8]) -> usize
    requires { (row_width ≤ length cells.now) × (length cells.now ≤ most_cells) }
    ensures { Put text.old 0 (dump cells.now) text.new result }
{
    let at = put_header(text);
    put_rows(text, at, cells)
}

// Writes a finished trace as a value change dump and answers its bytes. Refusals: 11 for a buffer that is none of 1 to 2^24 rows, then 28 for
// a text too short. The bytes are counted first. A refusal changes nothing.
pub fn write_dump(cells: &[u64], text: &mut [u8]) -> Result<usize, Refusal>
    ensures answer { told result ≡ dumping cells.now (length text.old) }
    ensures text_after { text.new ≡ text_after cells.now (dumping cells.now (length text.old)) text.old }
{
    if rows_wrong(cells.len()) {
        return Err(Refusal::BadLength);
    }
    let bytes = dump_bytes(cells);
    if text.len() < bytes {
        return Err(Refusal::ShortText);
    }
    put_dump(cells, text);
    Ok(bytes)
}
