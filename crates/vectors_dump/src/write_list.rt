// The list's text is the header of every dump. A vector: how many cells are lent, the cells, how many bytes of a text, and what writing answers:
// number and bytes, and the bytes behind the header. Where it is accepted, the dump is read back.

use crate::given::{MOST_BYTES, MOST_CELLS, begins_with};
use dump::read_text::read_dump;
use dump::write::write_dump;
use field::felt::Felt;
use groups::constants::Row;
use vectors_shared::numbers::{Numbers, Part};
use vectors_shared::runner::Step;

const HEADER: usize = 1400;

// What stands in the text before.
const STOOD: u8 = b'~';

// Whether of the text the first `bytes` are those of the header and then those of the list, and the others stand as before.
fn is_written(header: Numbers<'_>, list: Numbers<'_>, bytes: usize, text: &[u8]) -> bool {
    let (front, rows) = text.split_at(HEADER.min(bytes).min(text.len()));
    let listed = bytes.saturating_sub(HEADER);
    header.begins_with(front) && list.is_told(listed, u64::from(STOOD), rows)
}

// Whether the cells, reduced, come back from their dump.
fn comes_back(cells: &[u64], dump: &[u8]) -> bool {
    let mut room = [0u64; MOST_CELLS];
    let back = &mut room[..cells.len().min(MOST_CELLS)];
    read_dump(dump, back) == Ok(cells.len() / Row::WIDTH)
        && back
            .iter()
            .zip(cells)
            .all(|(number, cell)| *number == *cell % Felt::MODULUS)
}

// The vector that begins the list.
pub fn run_vector<'a>(header: Numbers<'a>, list: Numbers<'a>) -> Step<'a> {
    let cells: Part<u64, MOST_CELLS> = list.part();
    let given = list.behind(1 + list.at_most(0, MOST_CELLS));
    let mut text = [STOOD; MOST_BYTES];
    let lent = given.at_most(0, MOST_BYTES);
    let written = write_dump(cells.lent(), &mut text[..lent]);
    let answer = given.behind(1);
    let listed = answer.at_most(1, MOST_BYTES);
    let rows = answer.behind(2);
    let mut right = begins_with(answer, written) && is_written(header, rows, listed, &text);
    if let Ok(bytes) = written {
        right &= comes_back(cells.lent(), &text[..bytes.min(MOST_BYTES)]);
    }
    Step {
        right,
        rest: rows.behind(listed.saturating_sub(HEADER)),
    }
}
