// The lists of the groups layer: helpers, flags, places, places by batch records and contexts. A record is what the call is given, and then
// the answer's number and six values (0 where there are fewer).

use groups::batch::{BasicBlockNode, LentBatches};
use groups::context::BasicBlockContext;
use groups::flags::{BatchFlags, get_op_batch_flags};
use groups::group::{OpPlace, op_idx_in_batch_to_group, op_place};
use groups::helpers::OperationHelperRegisters;
use groups::refusal::{Refusal, answered_number};
use vectors_shared::numbers::Numbers;

// The values of an answer.
pub type Answer = Result<[u64; 6], Refusal>;

// Whether an answer's number and its values are the seven numbers expected.
pub fn is_right(answer: Answer, expected: Numbers<'_>) -> bool {
    let number = u64::from(answered_number(answer));
    let values = answer.unwrap_or([0; 6]);
    expected.begins_with(&[number]) && expected.behind(1).begins_with(&values)
}

// A record: the case, and six numbers of which it takes the first ones.
pub fn helpers(list: Numbers<'_>) -> Answer {
    let h = OperationHelperRegisters::from(list).to_user_op_helpers()?;
    Ok([h.h2, h.h3, h.h4, h.h5, h.h6, h.h7])
}

// A record: the count.
pub fn flags(list: Numbers<'_>) -> Answer {
    let found = get_op_batch_flags(list.number(0));
    let BatchFlags(first, second, third) = found.ok_or(Refusal::BadGroupCount)?;
    Ok([first, second, third, 0, 0, 0])
}

fn place_values(place: OpPlace) -> [u64; 6] {
    [place.group, place.index, place.following, 0, 0, 0]
}

// A record: nine starts, the number of operations, the operation.
pub fn places(list: Numbers<'_>) -> Answer {
    let found = op_idx_in_batch_to_group(list.array(), list.item(9), list.item(10));
    Ok(place_values(found.ok_or(Refusal::NoSuchOperation)?))
}

// A record: how many of the 36 numbers of three batches are lent, the batch record's number, the operation, and the 36 numbers.
pub fn records(list: Numbers<'_>) -> Answer {
    let batches: [u32; 36] = list.behind(3).array();
    let lent = list.at_most(0, 36);
    Ok(place_values(op_place(&batches[..lent], list.item(1), list.item(2))?))
}

// A context, and what its row shows beside it.
fn context_values(context: BasicBlockContext, beside: [u64; 3]) -> [u64; 6] {
    let [first, second, third] = beside;
    [
        context.current_op_group,
        context.group_count_in_block,
        first,
        second,
        third,
        0,
    ]
}

// A record: 0 for an operation and 1 for the start of a batch, PUSH, the block (total, first batch, batches), the batch, the operation,
// the 36 numbers of three batches, and their 24 groups.
pub fn contexts(list: Numbers<'_>) -> Answer {
    let records: [u32; 36] = list.behind(7).array();
    let groups: [u64; 24] = list.behind(43).array();
    let batches = LentBatches {
        records: &records,
        groups: &groups,
    };
    let block = BasicBlockNode {
        total: list.item(2),
        first_batch: list.item(3),
        batches: list.item(4),
    };
    let index = list.item(5);
    if list.number(0) == 0 {
        let at = BasicBlockContext::new_at_op(list.item(1), &batches, block, index, list.item(6))?;
        let place = at.place;
        return Ok(context_values(at.context, [place.index, place.group, place.following]));
    }
    let at = BasicBlockContext::new_at_batch_start(&batches, block, index)?;
    let BatchFlags(first, second, third) = at.flags;
    Ok(context_values(at.context, [first, second, third]))
}
