// What a vector gives: the profile and the buffer.

use rows::records::profile::Profile;
use vectors_shared::changes::put_pairs;
use vectors_shared::given::fill_rows;
use vectors_shared::numbers::Numbers;

// The room is fixed, since no heap is used.
pub const MOST_CELLS: usize = 6860;

// The example's opcodes, and a step.
pub fn profile_of(step: u64) -> Profile {
    Profile {
        span: 86,
        respan: 120,
        join: 87,
        split: 84,
        loop_op: 85,
        repeat: 116,
        call: 108,
        syscall: 104,
        dyn_op: 88,
        dyncall: 92,
        push: 91,
        end: 112,
        halt: 124,
        step,
    }
}

// Fills a buffer with the rows listed, and changes one cell.
pub fn fill(given: Numbers<'_>, buffer: &mut [u64; MOST_CELLS]) {
    fill_rows(given.behind(6), buffer);
    put_pairs(given.behind(3), 1, buffer);
}
