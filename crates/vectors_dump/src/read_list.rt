// A vector: the bytes of the list's text from one place to another are replaced. Given are both places, how many bytes the text has then, how
// many there are instead, and these bytes. Then how many cells are lent, and what reading answers: number and rows, and the cells of the rows.

use crate::given::{MOST_BYTES, MOST_CELLS, begins_with};
use dump::read_text::read_dump;
use groups::constants::Row;
use vectors_shared::numbers::Numbers;
use vectors_shared::runner::Step;

// What stands in the cells before.
const STOOD: u64 = 900;

// The text with the change that begins the list.
fn changed(text: Numbers<'_>, list: Numbers<'_>) -> [u8; MOST_BYTES] {
    let mut bytes = [0u8; MOST_BYTES];
    let (before, others) = bytes.split_at_mut(list.at_most(0, MOST_BYTES));
    let (instead, behind) = others.split_at_mut(list.at_most(3, others.len()));
    text.fill(before);
    list.behind(4).fill(instead);
    text.behind(list.at_most(1, MOST_BYTES)).fill(behind);
    bytes
}

// The vector that begins the list.
pub fn run_vector<'a>(text: Numbers<'a>, list: Numbers<'a>) -> Step<'a> {
    let bytes = changed(text, list);
    let given = list.behind(4 + list.at_most(3, MOST_BYTES));
    let mut cells = [STOOD; MOST_CELLS];
    let lent = &mut cells[..given.at_most(0, MOST_CELLS)];
    let read = read_dump(&bytes[..list.at_most(2, MOST_BYTES)], lent);
    let answer = given.behind(1);
    let listed = Row::WIDTH * answer.at_most(1, 14);
    let rows = answer.behind(2);
    Step {
        right: begins_with(answer, read) && rows.is_told(listed, STOOD, &cells),
        rest: rows.behind(listed),
    }
}
