// The cells of a lent slice.
ghost use Rattle.std.specs.Prelude.{◌≡◌, get_or};
ghost use Rattle.field.specs.Cells.{cell_at};

use crate::felt::reduce;

// Cell i of the slice, read modulo p; 0 past its end.
#[tactic(auto, unfolding(crate::specs::Cells::cell_at))]
pub fn cell(cells: &[u64], i: usize) -> u64
    ensures { result ≡ cell_at cells.now i }
{
    reduce(item_or(cells, i, 0))
}

// Item i of the slice, `other` past its end.
pub fn item_or<T: Copy>(items: &[T], i: usize, other: T) -> T
    ensures { result ≡ get_or items.now i other }
{
    items.get(i).copied().unwrap_or(other)
}
