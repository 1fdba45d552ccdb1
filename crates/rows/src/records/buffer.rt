// A buffer of rows: what every call checks of it, and the opcode of a row. A number of rows may be any; nothing is multiplied before it is known to fit.
ghost use Rattle.std.specs.Prelude.{◌≡◌, ◌<◌, ltb};
ghost use Rattle.groups.specs.Constants.{most_rows};
ghost use Rattle.rows.specs.records.Buffers.{buffer_row, opcode_of, buffer_wrong, fewer_rows};

use field::cell::cell;
use groups::constants::Row;

// Refusal 11: the buffer has a part of a row, or over 2^24 rows.
#[tactic(auto, unfolding(crate::specs::records::Buffers::buffer_wrong))]
pub fn buffer_wrong(cells: usize) -> bool
    ensures { result ≡ buffer_wrong cells }
{
    (0 < cells % Row::WIDTH) | (Row::MOST < cells / Row::WIDTH)
}

// Refusal 11: fewer rows than said.
#[tactic(auto, unfolding(crate::specs::records::Buffers::fewer_rows))]
pub fn fewer_rows(cells: usize, rows: usize) -> bool
    ensures { result ≡ fewer_rows cells rows }
{
    cells / Row::WIDTH < rows
}

// The opcode of row i, from each bit cell's lowest bit; past the end, 0.
pub fn decode_opcode(buffer: &[u64], i: usize) -> u64
    ensures { result ≡ opcode_of (buffer_row i buffer.now) }
{
    if buffer.len() / Row::WIDTH < i {
        return 0;
    }
    let at = Row::WIDTH * i;
    cell(buffer, at + 7) % 2
        + 2 * (cell(buffer, at + 8) % 2)
        + 4 * (cell(buffer, at + 9) % 2)
        + 8 * (cell(buffer, at + 10) % 2)
        + 16 * (cell(buffer, at + 11) % 2)
        + 32 * (cell(buffer, at + 12) % 2)
        + 64 * (cell(buffer, at + 13) % 2)
}

// Whether row i's opcode is below 64, by its highest bit alone.
pub(crate) fn is_low(buffer: &[u64], i: usize) -> bool
    requires { i < most_rows }
    ensures { result ≡ ltb (opcode_of (buffer_row i buffer.now)) 64 }
{
    cell(buffer, Row::WIDTH * i + 13) % 2 == 0
}
