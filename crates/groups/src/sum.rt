// What the groups of a block's batches add up to, and the PUSH operations in a group.
ghost use Rattle.std.specs.Prelude.{◌≡◌, ◌+◌, ◌-◌, ◌*◌, ◌≤◌};
ghost use Rattle.groups.specs.GroupsLeft.{groups_of, counts, group_sum, pushes};

use field::cell::item_or;

// The groups of a batch, rounded up to a power of two or as they are.
#[tactic(auto, using(crate::proofs::RoundUp::next_power), unfolding(crate::specs::GroupsLeft::groups_of))]
fn groups_of(count: u32, rounded: bool) -> u64
    ensures value { result ≡ groups_of rounded count }
    ensures upper_bound { result ≤ 4294967296 }
{
    let groups = u64::from(count);
    if rounded {
        groups.next_power_of_two()
    } else {
        groups
    }
}

// The sum, and whether one of the batches has more than 8 groups. No Option of the sum: the flag refuses with 11, and the sum before it with 7
// or 8; specs/GroupsLeft.antt names both.
#[derive(Clone, Copy)]
pub struct GroupSum {
    pub groups: u64,
    pub above8: bool,
}

// The groups of batches `from` to `to` (not included) of the block whose first batch is record `first`, each batch's rounded up to a
// power of two or as they are.
pub fn sum_groups(batches: &[u32], first: u32, from: u32, to: u32, rounded: bool) -> GroupSum
    ensures value { result ≡ group_sum rounded (counts batches.now (first + from) (to - from)) }
    ensures groups_bound { result.groups ≤ 4294967296 * (to - from) }
{
    let mut sum = GroupSum {
        groups: 0,
        above8: false,
    };
    for k in from..to {
        let count = item_or(batches, 12 * (first as usize + k as usize), 0);
        sum.groups += groups_of(count, rounded);
        sum.above8 |= 8 < count;
    }
    sum
}

// How many of the lowest n digits of 7 bits of the group are PUSH.
#[tactic(auto, using(crate::proofs::Sums::push_laws))]
pub fn push_count(push: u8, group: u64, n: u64) -> u64
    ensures value { result ≡ pushes push n group }
    ensures upper_bound { result ≤ n }
{
    let mut rest = group;
    let mut sum = 0;
    for _k in 0..n {
        if rest % 128 == u64::from(push) {
            sum += 1;
        }
        rest /= 128;
    }
    sum
}
