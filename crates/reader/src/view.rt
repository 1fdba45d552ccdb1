// A row asked for by its number.
ghost use Rattle.reader.specs.Views.{RowView};

use groups::constants::Row;

// The caller's own 49 cells of the row, no copy; the empty part where 11 refuses.
pub fn row(cells: &[u64], number: usize) -> &[u64]
    ensures { RowView cells.entry number result }
{
    let rows = cells.len() / Row::WIDTH;
    if cells.len() % Row::WIDTH != 0 {
        return &cells[..0];
    }
    if Row::MOST < rows {
        return &cells[..0];
    }
    if rows <= number {
        return &cells[..0];
    }
    let from = number * Row::WIDTH;
    let to = from + Row::WIDTH;
    &cells[from..to]
}
