// What the lists of writing and of reading share.
use groups::refusal::{Refusal, answered_number};
use vectors_shared::numbers::Numbers;

// The most bytes of a text.
pub const MOST_BYTES: usize = 8192;

// The most cells of a buffer: those of 14 rows.
pub const MOST_CELLS: usize = 686;

// Whether the list begins with an answer: its number, and the bytes or rows, 0 after a refusal.
pub fn begins_with(list: Numbers<'_>, answer: Result<usize, Refusal>) -> bool {
    let number = u64::from(answered_number(answer));
    list.begins_with(&[number, answer.unwrap_or(0) as u64])
}
