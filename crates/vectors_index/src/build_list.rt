// A list: how many vectors it has, and the vectors. A vector: how many cells are lent, how many numbers of the index, the profile's step, a
// changed cell as its place and its number, how many rows are listed, and the rows, each as opcode, in_span, h4 and group_count. Then what
// building answers: number, row, blocks; where it is accepted, the index, and for each row listed and one past them what looking it up tells.

use crate::given::{MOST_CELLS, fill, profile_of};
use crate::lookup_list::told;
use index::build::build_index;
use index::enclosing::enclosing_block;
use vectors_shared::numbers::Numbers;
use vectors_shared::runner::{Step, count_right};

// The most numbers of an index, three a block.
const MOST_NUMBERS: usize = 240;

const MOST_ROWS: usize = 140;

// What stands in the index before it is built.
const STOOD: u32 = 900;

// Builds the index, as many cells and numbers being lent as is said, and answers number, row and blocks.
fn build(given: Numbers<'_>, index: &mut [u32; MOST_NUMBERS]) -> [u64; 3] {
    let mut buffer = [0u64; MOST_CELLS];
    fill(given, &mut buffer);
    let cells = given.at_most(0, MOST_CELLS);
    let numbers = given.at_most(1, MOST_NUMBERS);
    let profile = profile_of(given.number(2));
    match build_index(profile, &buffer[..cells], &mut index[..numbers]) {
        Ok(blocks) => [0, 0, blocks as u64],
        Err(refused) => [u64::from(u32::from(refused.refusal)), refused.row as u64, 0],
    }
}

// The first vector of what is left of a list.
fn vector(rest: Numbers<'_>) -> Step<'_> {
    let rows = rest.at_most(5, MOST_ROWS);
    let answer = rest.behind(6 + 4 * rows);
    let listed = 3 * answer.at_most(2, 80);
    let asked = if answer.number(0) == 0 { rows + 1 } else { 0 };
    let lookups = answer.behind(3 + listed);
    let mut index = [STOOD; MOST_NUMBERS];
    let built = build(rest, &mut index);
    let right = answer.begins_with(&built)
        && answer.behind(3).is_told(listed, u64::from(STOOD), &index)
        && (0..asked).all(|row| told(enclosing_block(&index[..listed], row))
            == lookups.number(row));
    Step {
        right,
        rest: lookups.behind(asked),
    }
}

// How many of the list's vectors come out right.
pub fn right(list: Numbers<'_>) -> u64 {
    count_right(list.behind(1), list.number(0), vector)
}
