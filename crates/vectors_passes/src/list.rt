// A list: how many vectors it has, a base input of 869 numbers, and the vectors. A vector: the call (0 to 4 the passes in order, 5 the
// finisher), the changes to the base input, the answer's number, and the changes that the call makes to the buffer. Changes: how many runs
// there are, and for each its first place, its length, and its numbers. After a refusal there are none. Where the finisher accepts, the
// five passes one after another, on the input's rows and last built cells, are held against the same expected buffer.

use crate::input::{Call, Input};
use groups::refusal::{Refusal, answered_number};
use vectors_shared::changes::make_changes;
use vectors_shared::numbers::Numbers;
use vectors_shared::runner::Step;

// How many numbers the base input has.
pub const BASE: usize = 869;

// A buffer, and how many of its cells are lent.
#[derive(Clone, Copy)]
struct Buffer {
    cells: [u64; 590],
    lent: usize,
}

impl Buffer {
    // Whether a call on the cells that are lent answers the number and leaves the expected cells.
    fn is_right<F: Fn(&mut [u64]) -> Result<(), Refusal>>(
        self,
        call: F,
        number: u64,
        expected: Numbers<'_>,
    ) -> bool
        requires { F.IsAlwaysCallable call }
    {
        let mut cells = self.cells;
        let lent = self.lent.min(cells.len());
        let answer = call(&mut cells[..lent]);
        u64::from(answered_number(answer)) == number && expected.begins_with(&cells)
    }
}

// The vector that begins the list.
pub fn run_vector<'a>(base: Numbers<'_>, list: Numbers<'a>) -> Step<'a> {
    let mut numbers: [u64; BASE] = base.array();
    let answer = make_changes(list.behind(1), &mut numbers);
    let given = Numbers::new(&numbers);
    let buffer = Buffer {
        cells: given.behind(279).array(),
        lent: given.at_most(278, 590),
    };
    let mut cells = buffer.cells;
    let rest = make_changes(answer.behind(1), &mut cells);
    let input = Input::from(given);
    let call = Call::from(list.number(0));
    let number = answer.number(0);
    let expected = Numbers::new(&cells);
    let mut right = buffer.is_right(|lent| input.run(call, lent), number, expected);
    if list.number(0) == 5 && number == 0 {
        right &= buffer.is_right(|lent| input.run_passes(lent), 0, expected);
    }
    Step { right, rest }
}
