// A row of a buffer that is dumped.
ghost use Rattle.std.specs.Prelude.{◌≡◌, true, false, ◌+◌, ◌*◌, ◌≤◌, ◌<◌, eqb, length, MatchOption};
ghost use Rattle.groups.specs.Constants.{row_width, most_rows};
ghost use Rattle.dump.specs.ways.Places.{value_at, old_at};

use field::cell::cell;
use groups::constants::Row;

#[derive(Clone, Copy)]
pub(crate) struct LentRow<'a> {
    pub(crate) cells: &'a [u64],
    pub(crate) row: usize,
    ghost few: { row < most_rows },
    ghost inside: { row_width * row + row_width ≤ length cells.now },
}

impl LentRow<'_> {
    // A column's value, where it is not that of the row before; no value of the first row is. Numbers that are equal as they stand are not
    // reduced.
    pub(crate) fn changed(&self, column: usize) -> Option<u64>
        requires { column < row_width }
        ensures { MatchOption result
            (eqb (old_at self.now.cells.now self.now.row column) (value_at self.now.cells.now self.now.row column) ≡ true)
            (λ value. (eqb (old_at self.now.cells.now self.now.row column) (value_at self.now.cells.now self.now.row column) ≡ false)
            × (value ≡ value_at self.now.cells.now self.now.row column)) }
    {
        let at = Row::WIDTH * self.row + column;
        if self.row == 0 {
            return Some(cell(self.cells, at));
        }
        let before = Row::WIDTH * (self.row - 1) + column;
        if self.cells[before] == self.cells[at] {
            return None;
        }
        let value = cell(self.cells, at);
        if cell(self.cells, before) == value {
            return None;
        }
        Some(value)
    }
}
