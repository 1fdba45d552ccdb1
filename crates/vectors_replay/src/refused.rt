// A list of refused records: how many cases it has, profile (14), address state (2); nodes, digests, batches, groups, opcodes, directory,
// addresses, parents, ends and the records of a run, each with its length before it; for each case the number that it is refused by, 0
// where it is accepted, how many numbers it changes, and for each its place, 0 for the records' length and then one for each of their
// numbers, and what stands there instead.
use crate::cases::{Case, Layout};
use crate::parts::begins_with_left;
use vectors_shared::numbers::Numbers;

pub const LAYOUT: Layout = Layout {
    before: 0,
    behind: 0,
    end: 8192,
};

// Whether the records are refused by the number, with all other answers 0 and the fragment as it was; for 0, whether they are accepted.
pub fn is_right(case: Case<'_>) -> bool {
    let mut fragment = [u64::MAX; 441];
    let left = case.replay(case.list.behind(15), &mut fragment);
    if u64::from(left.refusal) != case.number {
        return false;
    }
    case.number == 0
        || begins_with_left(Numbers::new(&[]), &left)
            && fragment.iter().all(|cell| *cell == u64::MAX)
}
