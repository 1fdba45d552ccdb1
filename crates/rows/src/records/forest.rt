// The lent forest. Six numbers a node in `nodes`: what the slot holds, two children, and of a block its total of groups, the record
// of its first batch and how many batches it has. Four cells a node in `digests`. `ops` has one opcode a byte.
ghost use Rattle.std.specs.Prelude.{◌≡◌, ◌+◌, ◌*◌};
ghost use Rattle.groups.specs.Constants.{no_such_node, wrong_node_kind, no_such_operation};
ghost use Rattle.groups.specs.Refusals.{told_or};
ghost use Rattle.rows.specs.records.Forests.{is_slot, slot_block, node_at, digest_at, opcode_at, block_of};
ghost use Rattle.rows.specs.ways.Inner.{kind_at, IsNodeOf};

use crate::records::ids::MastNodeId;
use field::cell::item_or;
use groups::batch::{BasicBlockNode, LentBatches, OpBatch};
use groups::word::{Word, word_at};

#[derive(Clone, Copy)]
pub enum MastNode {
    Block(BasicBlockNode),
    Join(MastNodeId, MastNodeId),
    Split(MastNodeId, MastNodeId),
    Loop(MastNodeId),
    Call(MastNodeId),
    Syscall(MastNodeId),
    Dyn,
    Dyncall,
    External,
}

// A node and its digest.
#[derive(Clone, Copy)]
pub struct NodeEntry {
    pub node: MastNode,
    pub digest: Word,
}

// The slices of a forest, or of several.
#[derive(Clone, Copy)]
pub struct LentForest<'a> {
    pub nodes: &'a [u32],
    pub digests: &'a [u64],
    pub batches: LentBatches<'a>,
    pub ops: &'a [u8],
}

// The node of a slot, by what it holds; a number that names no kind is no node.
#[tactic(auto, unfolding(crate::specs::records::Forests::node_of))]
fn node_of(kind: u32, first: u32, second: u32, block: BasicBlockNode) -> Option<MastNode>
    ensures { IsNodeOf result kind first second block }
{
    match kind {
        2 => Some(MastNode::Block(block)),
        3 => Some(MastNode::Join(MastNodeId(first), MastNodeId(second))),
        4 => Some(MastNode::Split(MastNodeId(first), MastNodeId(second))),
        5 => Some(MastNode::Loop(MastNodeId(first))),
        6 => Some(MastNode::Call(MastNodeId(first))),
        7 => Some(MastNode::Syscall(MastNodeId(first))),
        8 => Some(MastNode::Dyn),
        9 => Some(MastNode::Dyncall),
        10 => Some(MastNode::External),
        _ => None,
    }
}

impl<'a> LentForest<'a> {
    // Whether the slot's six numbers and four cells lie whole in the slices.
    #[tactic(auto, unfolding(crate::specs::records::Forests::is_slot))]
    fn is_slot(&self, id: MastNodeId) -> bool
        ensures { result ≡ is_slot self.now.nodes.now self.now.digests.now id.0 }
    {
        let i = id.0 as usize;
        (6 * i + 6 <= self.nodes.len()) & (4 * i + 4 <= self.digests.len())
    }

    // What the slot holds: its first number, 0 where it does not lie whole in the slices.
    #[tactic(auto, unfolding(crate::specs::ways::Inner::kind_at))]
    pub(crate) fn kind_at(&self, id: MastNodeId) -> u32
        ensures { result ≡ kind_at self.now.nodes.now self.now.digests.now id.0 }
    {
        if !self.is_slot(id) {
            return 0;
        }
        item_or(self.nodes, 6 * (id.0 as usize), 0)
    }

    // The block of a slot, where it is one.
    pub(crate) fn slot_block(&self, id: MastNodeId) -> BasicBlockNode
        ensures { result ≡ slot_block self.now.nodes.now id.0 }
    {
        let at = 6 * (id.0 as usize);
        BasicBlockNode {
            total: item_or(self.nodes, at + 3, 0),
            first_batch: item_or(self.nodes, at + 4, 0),
            batches: item_or(self.nodes, at + 5, 0),
        }
    }

    // The node of an id.
    #[tactic(auto, unfolding(crate::specs::records::Forests::node_at))]
    pub fn node_at(&self, id: MastNodeId) -> Option<NodeEntry>
        ensures { told_or no_such_node result ≡ node_at self.now.nodes.now self.now.digests.now id.0 }
    {
        let kind = self.kind_at(id);
        let at = 6 * (id.0 as usize);
        let node = node_of(
            kind,
            item_or(self.nodes, at + 1, 0),
            item_or(self.nodes, at + 2, 0),
            self.slot_block(id),
        )?;
        let digest = word_at(self.digests, 4 * (id.0 as usize));
        Some(NodeEntry { node, digest })
    }

    // The digest of an id, of a node or of a slot that has its digest alone.
    #[tactic(auto, unfolding(crate::specs::records::Forests::digest_at, crate::specs::ways::Inner::kind_at))]
    pub fn digest_at(&self, id: MastNodeId) -> Option<Word>
        ensures { told_or no_such_node result ≡ digest_at self.now.nodes.now self.now.digests.now id.0 }
    {
        let kind = self.kind_at(id);
        if (kind == 0) | (10 < kind) {
            return None;
        }
        Some(word_at(self.digests, 4 * (id.0 as usize)))
    }

    // The opcode of operation `op` of the batch; none past the batch's operations, nor past the slice.
    #[tactic(auto, unfolding(crate::specs::records::Forests::opcode_at))]
    pub fn opcode_at(&self, batch: OpBatch, op: u32) -> Option<u8>
        ensures { told_or no_such_operation result ≡ opcode_at self.now.ops.now batch op }
    {
        if batch.num_ops <= op {
            return None;
        }
        self.ops.get(batch.first_op as usize + op as usize).copied()
    }
}

impl MastNode {
    // The block that a node is.
    #[tactic(auto, unfolding(crate::specs::records::Forests::block_of))]
    pub fn as_block(self) -> Option<BasicBlockNode>
        ensures { told_or wrong_node_kind result ≡ block_of self }
    {
        match self {
            Self::Block(block) => Some(block),
            _ => None,
        }
    }
}
