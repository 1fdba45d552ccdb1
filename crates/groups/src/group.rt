// The group of a batch that an operation lies in, by the batch's nine group starts.
ghost use Rattle.std.specs.Prelude.{◌≡◌, ◌<◌};
ghost use Rattle.groups.specs.Constants.{no_such_operation};
ghost use Rattle.groups.specs.GroupOfOperation.{group_of, place_in, following_ops, place_of_op};
ghost use Rattle.groups.specs.Refusals.{told, told_or};

use crate::batch::starts_of;
use crate::refusal::Refusal;
use field::cell::item_or;

// Where an operation lies in its batch: the group's number, its index in that group, and how many operations follow it there.
#[derive(Clone, Copy)]
pub struct OpPlace {
    pub group: u64,
    pub index: u64,
    pub following: u64,
}

// How many operations follow operation `op` in its group: up to the next group's start, or to the end of the batch's operations.
fn following_ops(next: u32, num_ops: u32, op: u32) -> u32
    requires { (op < next) × (op < num_ops) }
    ensures { result ≡ following_ops next num_ops op }
{
    next.min(num_ops) - op - 1
}

// The place at index op - start of a group. None, refused with 6: the index is above 8.
#[tactic(auto, unfolding(crate::specs::GroupOfOperation::place_in))]
fn place_in(group: usize, index: u32, following: u32) -> Option<OpPlace>
    ensures { told_or no_such_operation result ≡ place_in group index following }
{
    if 8 < index {
        return None;
    }
    Some(OpPlace {
        group: group as u64,
        index: u64::from(index),
        following: u64::from(following),
    })
}

// The group with start ≤ op < next start, the index in it, and how many operations follow it there. None, refused with 6: the operation
// is past the batch's, a start falls, no group holds the operation, or its index is above 8.
#[tactic(auto, using(crate::proofs::Starts::start_laws), unfolding(crate::specs::GroupOfOperation::group_of))]
pub fn op_idx_in_batch_to_group(starts: [u32; 9], num_ops: u32, op: u32) -> Option<OpPlace>
    ensures { told_or no_such_operation result ≡ group_of starts num_ops op }
{
    if num_ops <= op || !starts.is_sorted() {
        return None;
    }
    for group in 0..8 {
        let start = starts[group];
        let next = starts[group + 1];
        if start <= op && op < next {
            return place_in(group, op - start, following_ops(next, num_ops, op));
        }
    }
    None
}

// The place of an operation of the batch in a record, by the batch records alone, or the lowest number of 5, 6 and 11 that holds.
#[tactic(auto, unfolding(crate::specs::GroupOfOperation::place_of_op))]
pub fn op_place(batches: &[u32], record: usize, op: u32) -> Result<OpPlace, Refusal>
    ensures { told result ≡ place_of_op batches.now «record» op }
{
    if batches.len() / 12 <= record {
        return Err(Refusal::NoSuchBatch);
    }
    let starts = starts_of(batches, record);
    let num_ops = item_or(batches, 12 * record + 10, 0);
    let Some(place) = op_idx_in_batch_to_group(starts, num_ops, op) else {
        return Err(Refusal::NoSuchOperation);
    };
    if 8 < item_or(batches, 12 * record, 0) {
        return Err(Refusal::BadLength);
    }
    Ok(place)
}
