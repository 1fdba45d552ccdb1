// What a call is given, each from the numbers of a list that begin at a place.
ghost use Rattle.std.specs.Prelude.{◌<◌, length};

use crate::numbers::Numbers;
use groups::constants::{Column, Row};
use rows::records::profile::Profile;

// The thirteen opcodes and the step.
impl From<Numbers<'_>> for Profile {
    fn from(list: Numbers<'_>) -> Self {
        Profile {
            span: list.item(0),
            respan: list.item(1),
            join: list.item(2),
            split: list.item(3),
            loop_op: list.item(4),
            repeat: list.item(5),
            call: list.item(6),
            syscall: list.item(7),
            dyn_op: list.item(8),
            dyncall: list.item(9),
            push: list.item(10),
            end: list.item(11),
            halt: list.item(12),
            step: list.item(13),
        }
    }
}

// Cell k of a row: the op bits, h4, in_span and group_count of the row listed, and else a number that is the row's own.
fn cell_of(list: Numbers<'_>, row: usize, k: usize) -> u64
    requires row_bound { row < 1000 }
    requires k_bound { k < 49 }
{
    let own = (1000 * row + k) as u64;
    // Most columns are none of those listed, which lie between these two.
    if k < 7 || Column::GROUP_COUNT < k {
        return own;
    }
    match k {
        7..=13 => list.number(4 * row) >> (k - 7) & 1,
        Column::H4 => list.number(4 * row + 2),
        Column::IN_SPAN => list.number(4 * row + 1),
        Column::GROUP_COUNT => list.number(4 * row + 3),
        _ => own,
    }
}

// Fills the buffer with the rows listed, each as opcode, in_span, h4 and group_count.
pub fn fill_rows(list: Numbers<'_>, buffer: &mut [u64])
    requires { length buffer.old < 49000 }
{
    for (i, cell) in buffer.iter_mut().enumerate() {
        *cell = cell_of(list, i / Row::WIDTH, i % Row::WIDTH);
    }
}
