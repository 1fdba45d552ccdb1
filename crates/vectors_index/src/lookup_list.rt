// A list: how many vectors it has, and the vectors. A vector: how many numbers an index has, the numbers, a row, and what looking it up tells:
// the place, 999999 for none, 1000000 and its number for a refusal.

use groups::refusal::Refusal;
use index::enclosing::enclosing_block;
use vectors_shared::numbers::{Numbers, Part};
use vectors_shared::runner::{Step, count_right};

// What looking a row up tells, as the lists have it.
pub fn told(found: Result<Option<usize>, Refusal>) -> u64 {
    match found {
        Ok(Some(place)) => place as u64,
        Ok(None) => 999999,
        Err(refusal) => 1000000 + u64::from(u32::from(refusal)),
    }
}

// The first vector of what is left of a list.
fn vector(rest: Numbers<'_>) -> Step<'_> {
    let index: Part<u32, 60> = rest.part();
    let asked = rest.behind(1).behind(index.length);
    Step {
        right: told(enclosing_block(index.lent(), asked.item(0))) == asked.number(1),
        rest: asked.behind(2),
    }
}

// How many of the list's vectors come out right.
pub fn right(list: Numbers<'_>) -> u64 {
    count_right(list.behind(1), list.number(0), vector)
}
