// A list: how many vectors it has, a base input of 583 numbers, and the vectors. A vector: the changes to the base input, then what reading
// the trace answers: number, row, program rows and, where it is accepted, the depth of each row; then the view of the row asked for: its
// length, its first and its last cell. Changes: how many runs there are, and for each its first place, its length, and its numbers.

use crate::given::{Input, MOST_CELLS, MOST_ROWS, fill};
use field::cell::item_or;
use reader::trace::read_trace;
use reader::view::row;
use vectors_shared::changes::make_changes;
use vectors_shared::numbers::Numbers;
use vectors_shared::runner::{Step, count_right};

// How many numbers a base input has.
const BASE: usize = 583;

// What stands in the depth list before the trace is read.
const STOOD: u32 = 900;

// Whether reading the input's trace answers the number, row and program rows that begin the list, and then as many depths.
fn reading_right(input: Input<'_>, answer: Numbers<'_>, listed: usize) -> bool {
    let mut depths = [STOOD; MOST_ROWS];
    let lent = input.depths.min(MOST_ROWS);
    let told = match read_trace(input.profile, input.lent(), &mut depths[..lent]) {
        Ok(rows) => [0, 0, rows as u64],
        Err(refused) => [u64::from(u32::from(refused.refusal)), refused.row as u64, 0],
    };
    answer.begins_with(&told) && answer.behind(3).is_told(listed, u64::from(STOOD), &depths)
}

// Whether the row asked for has the length, the first and the last cell that begin the list.
fn view_right(input: Input<'_>, answer: Numbers<'_>) -> bool {
    let view = row(input.lent(), input.asked);
    answer.begins_with(&[view.len() as u64, item_or(view, 0, 0), item_or(view, 48, 0)])
}

// The first vector of what is left of a list.
fn vector<'a>(list: Numbers<'a>, rest: Numbers<'a>) -> Step<'a> {
    let mut numbers: [u64; BASE] = list.behind(1).array();
    let answer = make_changes(rest, &mut numbers);
    let given = Numbers::new(&numbers);
    let mut buffer = [0u64; MOST_CELLS];
    fill(given, &mut buffer);
    let input = Input::new(given, &buffer);
    let listed = if answer.number(0) == 0 {
        input.rows()
    } else {
        0
    };
    let view = answer.behind(3 + listed);
    Step {
        right: reading_right(input, answer, listed) && view_right(input, view),
        rest: view.behind(3),
    }
}

// How many of the list's vectors come out right.
pub fn right(list: Numbers<'_>) -> u64 {
    count_right(
        list.behind(1 + BASE),
        list.number(0),
        |rest| vector(list, rest),
    )
}
