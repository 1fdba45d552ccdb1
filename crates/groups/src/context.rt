// What a row in a basic block says of the block's groups.
ghost use Rattle.std.specs.Prelude.{◌≡◌, ◌+◌, ◌*◌, ◌/◌, ◌^◌, ◌≤◌};
ghost use Rattle.groups.specs.Contexts.{too_large, context_in_group, context_at_op, cells_at_op, context_at_batch_start};
ghost use Rattle.groups.specs.Refusals.{told};

use crate::batch::{BasicBlockNode, LentBatches, OpBatch};
use crate::flags::{BatchFlags, get_op_batch_flags};
use crate::group::{OpPlace, op_idx_in_batch_to_group};
use crate::refusal::Refusal;
use crate::sum::{push_count, sum_groups};
use field::cell::cell;

// The current group, from the next operation on, and how many groups of the block are left.
#[derive(Clone, Copy)]
pub struct BasicBlockContext {
    pub current_op_group: u64,
    pub group_count_in_block: u64,
}

// The context at an operation, the batch and the operation's place in it.
#[derive(Clone, Copy)]
pub struct OpContext {
    pub context: BasicBlockContext,
    pub batch: OpBatch,
    pub place: OpPlace,
}

// What an operation's row shows: its index in its group, and the context.
#[derive(Clone, Copy)]
pub struct OpCells {
    pub index: u64,
    pub context: BasicBlockContext,
}

// The context at the start of a batch, the batch and its flags.
#[derive(Clone, Copy)]
pub struct BatchContext {
    pub context: BasicBlockContext,
    pub batch: OpBatch,
    pub flags: BatchFlags,
}

// The group from the operation after that at `index` on: an operation takes 7 bits.
fn after_op(group: u64, index: u64) -> u64
    requires { index ≤ 8 }
    ensures { result ≡ group / 2 ^ (7 * (index + 1)) }
{
    group >> (7 * (index + 1))
}

// Whether the block has too many batches, or the batch or one of the others added up has too many groups.
// The flag comes with the sum (`GroupSum`).
#[tactic(auto, unfolding(crate::specs::Contexts::too_large))]
fn is_too_large(block: BasicBlockNode, batch: OpBatch, above8: bool) -> bool
    ensures { result ≡ too_large block batch above8 }
{
    4096 < block.batches || 8 < batch.group_count || above8
}

// The context at an operation whose place in the batch is known, or 8 or 11.
#[tactic(auto, unfolding(crate::specs::Contexts::context_in_group, crate::specs::Contexts::op_context, crate::specs::Contexts::consumed))]
#[inline(always)]
fn in_group(
    push: u8,
    batches: &LentBatches,
    block: BasicBlockNode,
    index: u32,
    batch: OpBatch,
    place: OpPlace,
) -> Result<OpContext, Refusal>
    requires { (place.group ≤ 7) × (place.index ≤ 8) }
    ensures { told result ≡ context_in_group push block batches.now.records.now batches.now.groups.now index batch place }
{
    let sum = sum_groups(batches.records, block.first_batch, 0, index, true);
    let at = 8 * block.record_of(index) + place.group as usize;
    let group = cell(batches.groups, at);
    let consumed = sum.groups + push_count(push, group, place.index) + place.group + 1;
    let total = u64::from(block.total);
    if total < consumed {
        return Err(Refusal::OverTotal);
    }
    if is_too_large(block, batch, sum.above8) {
        return Err(Refusal::BadLength);
    }
    let context = BasicBlockContext {
        current_op_group: after_op(group, place.index),
        group_count_in_block: total - consumed,
    };
    Ok(OpContext {
        context,
        batch,
        place,
    })
}

impl BasicBlockContext {
    // The context at operation `op` of batch `index`, or the lowest number of 5, 6, 8 and 11 that holds.
    #[tactic(auto, unfolding(crate::specs::Contexts::context_at_op))]
    #[inline(always)]
    pub fn new_at_op(
        push: u8,
        batches: &LentBatches,
        block: BasicBlockNode,
        index: u32,
        op: u32,
    ) -> Result<OpContext, Refusal>
        ensures { told result ≡ context_at_op push block batches.now.records.now batches.now.groups.now index op }
    {
        let Some(batch) = batches.batch_at(block, index) else {
            return Err(Refusal::NoSuchBatch);
        };
        let starts = batches.starts_at(block, index);
        let Some(place) = op_idx_in_batch_to_group(starts, batch.num_ops, op) else {
            return Err(Refusal::NoSuchOperation);
        };
        in_group(push, batches, block, index, batch, place)
    }

    // What the row of operation `op` of batch `index` shows, refused as `new_at_op` refuses. With that, `batch_at` and `in_group` inlined, of
    // the batch's eight cells that of the operation's group alone is read.
    #[tactic(auto, unfolding(crate::specs::Contexts::cells_at_op))]
    pub fn cells_at_op(
        push: u8,
        batches: &LentBatches,
        block: BasicBlockNode,
        index: u32,
        op: u32,
    ) -> Result<OpCells, Refusal>
        ensures { told result ≡ cells_at_op push block batches.now.records.now batches.now.groups.now index op }
    {
        let found = Self::new_at_op(push, batches, block, index, op)?;
        Ok(OpCells {
            index: found.place.index,
            context: found.context,
        })
    }

    // The context at the start of batch `index`, or the lowest number of 5, 7 and 11 that holds.
    #[tactic(auto, unfolding(crate::specs::Contexts::context_at_batch_start))]
    pub fn new_at_batch_start(
        batches: &LentBatches,
        block: BasicBlockNode,
        index: u32,
    ) -> Result<BatchContext, Refusal>
        ensures { told result ≡ context_at_batch_start block batches.now.records.now batches.now.groups.now index }
    {
        let Some(batch) = batches.batch_at(block, index) else {
            return Err(Refusal::NoSuchBatch);
        };
        let lent = batches.lent_batches(block);
        let sum = sum_groups(batches.records, block.first_batch, index, lent, false);
        let Some(flags) = get_op_batch_flags(sum.groups) else {
            return Err(Refusal::BadGroupCount);
        };
        if is_too_large(block, batch, sum.above8) {
            return Err(Refusal::BadLength);
        }
        let context = BasicBlockContext {
            current_op_group: batch.low.0,
            group_count_in_block: sum.groups,
        };
        Ok(BatchContext {
            context,
            batch,
            flags,
        })
    }
}
