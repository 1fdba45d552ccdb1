// What the reader is given, read of an input. The input's places: profile 0 to 13; how many cells of the buffer are lent 14; how many depth
// numbers 15; the row asked for 16; three changes of single cells 17 to 22, each a place and a number; the rows from 23, each as opcode,
// in_span, h4 and group_count.

ghost use Rattle.std.specs.Prelude.{◌≤◌};

use rows::records::profile::Profile;
use vectors_shared::changes::put_pairs;
use vectors_shared::given::fill_rows;
use vectors_shared::numbers::Numbers;

// The cells of a row.
const WIDTH: usize = 49;

// The room is fixed, since no heap is used.
pub const MOST_CELLS: usize = 6860;

pub const MOST_ROWS: usize = 160;

// Fills a buffer with the rows listed, and makes the changes of single cells.
pub fn fill(list: Numbers<'_>, buffer: &mut [u64; MOST_CELLS]) {
    fill_rows(list.behind(23), buffer);
    put_pairs(list.behind(17), 3, buffer);
}

// An input, with the buffer that is filled with its rows.
#[derive(Clone, Copy)]
pub struct Input<'a> {
    pub profile: Profile,
    pub depths: usize,
    pub asked: usize,
    cells: usize,
    buffer: &'a [u64; MOST_CELLS],
}

impl<'a> Input<'a> {
    // What the numbers say, and a buffer.
    pub fn new(list: Numbers<'_>, buffer: &'a [u64; MOST_CELLS]) -> Self {
        Self {
            profile: Profile::from(list),
            depths: list.item(15),
            asked: list.item(16),
            cells: list.item(14),
            buffer,
        }
    }

    // The cells that are lent.
    pub fn lent(&self) -> &[u64] {
        &self.buffer[..self.cells.min(MOST_CELLS)]
    }

    // How many depths are listed where the trace is accepted: one a row of what is lent.
    pub fn rows(&self) -> usize
        ensures { result ≤ 160 }
    {
        (self.cells / WIDTH).min(MOST_ROWS)
    }
}
