// A list of one vector: pass 2 on 5,000 rows, among them more LOOP rows than it takes at a time. The list's numbers: 1 vector, the profile
// (LOOP 0, END 1), and the counts that are expected of a LOOP row by its successor's address, 0 to 6.
//
// Row r has the address r % 7. Each tenth row is a flagged END, the others are LOOP rows. All other cells are 0.
use groups::constants::{Column, Row};
use rows::passes::multiplicity::set_loop_body_multiplicities;
use rows::records::profile::Profile;
use vectors_shared::numbers::Numbers;

const ROWS: usize = 5000;

const CELLS: usize = 245000;

// The lowest bit of a row's opcode.
const OP_BIT0: usize = 7;

// A cell of row r, given the counts of LOOP rows by their successor's address.
fn cell_of(r: usize, column: usize, counts: &[u64; 7]) -> u64 {
    let is_end = r % 10 == 9;
    match column {
        Column::ADDR => (r % 7) as u64,
        OP_BIT0 | Column::H4 => u64::from(is_end),
        Column::GROUP_COUNT if !is_end && r < ROWS - 1 => counts[(r % 7 + 1) % 7],
        _ => 0,
    }
}

// Fills the buffer with the rows, no LOOP row having a count.
fn fill(buffer: &mut [u64]) {
    for (i, cell) in buffer.iter_mut().enumerate() {
        *cell = cell_of(i / Row::WIDTH, i % Row::WIDTH, &[0; 7]);
    }
}

// Whether the buffer holds the rows, with these counts.
fn has_counts(buffer: &[u64], counts: &[u64; 7]) -> bool {
    buffer.iter().enumerate().all(|(i, cell)| *cell
        == cell_of(i / Row::WIDTH, i % Row::WIDTH, counts))
}

// Whether the vector comes out right: the profile, and the counts.
pub fn is_right(list: Numbers<'_>) -> bool {
    let mut buffer = [0u64; CELLS];
    fill(&mut buffer);
    let answer = set_loop_body_multiplicities(Profile::from(list), &mut buffer, ROWS);
    answer.is_ok() && has_counts(&buffer, &list.behind(14).array())
}
