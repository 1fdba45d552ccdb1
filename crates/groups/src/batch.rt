// The batches of a block, as lent: twelve numbers a batch in `records` (group count, nine group starts, number of operations,
// first operation) and eight cells a batch in `groups`. Batch `index` of a block is record first_batch + index of both.
ghost use Rattle.std.specs.Prelude.{◌≡◌, ◌^◌, ◌<◌};
ghost use Rattle.groups.specs.Batches.{record_of, is_batch, batch_at, starts_of, starts_at, lent_batches};
ghost use Rattle.groups.specs.Constants.{no_such_batch};
ghost use Rattle.groups.specs.Refusals.{told_or};

use crate::word::{Word, word_at};
use field::cell::item_or;

// The batches that are lent: their records and their groups.
#[derive(Clone, Copy)]
pub struct LentBatches<'a> {
    pub records: &'a [u32],
    pub groups: &'a [u64],
}

// A block: its total of groups as `num_op_groups` answers, the record of its first batch, and how many batches it has.
#[derive(Clone, Copy)]
pub struct BasicBlockNode {
    pub total: u32,
    pub first_batch: u32,
    pub batches: u32,
}

// A batch: its group count, number of operations and first operation, its record's number, and its eight group cells.
#[derive(Clone, Copy)]
pub struct OpBatch {
    pub group_count: u32,
    pub num_ops: u32,
    pub first_op: u32,
    pub record_index: usize,
    pub low: Word,
    pub high: Word,
}

impl BasicBlockNode {
    // The record of batch `index`.
    pub(crate) fn record_of(self, index: u32) -> usize
        ensures { result ≡ record_of self index }
    {
        self.first_batch as usize + index as usize
    }
}

#[tactic(auto, unfolding(crate::specs::Batches::is_batch, crate::specs::Batches::batch_at, crate::specs::Batches::starts_at, crate::specs::Batches::lent_batches))]
impl LentBatches<'_> {
    // Whether the block has a batch `index` whose records lie whole in the slices.
    pub(crate) fn is_batch(&self, block: BasicBlockNode, index: u32) -> bool
        ensures { result ≡ is_batch self.now.records.now self.now.groups.now block index }
    {
        let r = block.record_of(index);
        index < block.batches && 12 * r + 12 <= self.records.len() && 8 * r + 8 <= self.groups.len()
    }

    // Batch `index` of the block. None, refused with 5: the block has no such batch, or its records do not lie whole in the slices.
    #[inline(always)]
    pub fn batch_at(&self, block: BasicBlockNode, index: u32) -> Option<OpBatch>
        ensures { told_or no_such_batch result ≡ batch_at self.now.records.now self.now.groups.now block index }
    {
        if !self.is_batch(block, index) {
            return None;
        }
        let r = block.record_of(index);
        Some(OpBatch {
            group_count: item_or(self.records, 12 * r, 0),
            num_ops: item_or(self.records, 12 * r + 10, 0),
            first_op: item_or(self.records, 12 * r + 11, 0),
            record_index: r,
            low: word_at(self.groups, 8 * r),
            high: word_at(self.groups, 8 * r + 4),
        })
    }

    // The nine group starts of batch `index`.
    pub fn starts_at(&self, block: BasicBlockNode, index: u32) -> [u32; 9]
        ensures { result ≡ starts_at self.now.records.now block index }
    {
        starts_of(self.records, block.record_of(index))
    }

    // How many of the block's batches have their twelve numbers in the slice.
    pub fn lent_batches(&self, block: BasicBlockNode) -> u32
        ensures { result ≡ lent_batches self.now.records.now block }
    {
        let first = block.first_batch as usize;
        let lent = (self.records.len() / 12).saturating_sub(first);
        lent.min(block.batches as usize) as u32
    }
}

// The nine group starts of a record.
pub(crate) fn starts_of(batches: &[u32], record: usize) -> [u32; 9]
    requires { «record» < 2 ^ 60 }
    ensures { result ≡ starts_of batches.now «record» }
{
    let at = 12 * record + 1;
    std::array::from_fn(|k| item_or(batches, at + k, 0))
}
