// A list of address states: it begins as a list of refused records does. For each case the address state that the replay is handed (2); its
// number, which is 0, and the numbers that it changes, as in a list of refused records; and what the replay leaves: rows, built cells (25),
// address state (2) and queue positions (3).
use crate::cases::{Case, Layout};
use crate::parts::begins_with_left;

pub const LAYOUT: Layout = Layout {
    before: 2,
    behind: 31,
    end: 8000,
};

// Whether the records, replayed from the case's address state, leave what is behind its changes.
pub fn is_right(case: Case<'_>) -> bool {
    let mut fragment = [u64::MAX; 441];
    let left = case.replay(case.own, &mut fragment);
    left.refusal == 0 && begins_with_left(case.behind, &left)
}
