// The decoder part of a row.
ghost use Rattle.std.specs.Prelude.{◌≡◌};
ghost use Rattle.rows.specs.records.DecoderRows.{control_flow, basic_block_batch, operation, end_word};

use field::felt::Felt;
use groups::batch::OpBatch;
use groups::flags::BatchFlags;
use groups::helpers::UserOpHelpers;
use groups::word::Word;

#[derive(Clone, Copy)]
pub struct DecoderRow {
    pub addr: u64,
    pub opcode: u8,
    pub hasher_state_first_word: Word,
    pub hasher_state_second_word: Word,
    pub in_basic_block: u64,
    pub group_count: u64,
    pub op_index: u64,
    pub op_batch_flags: BatchFlags,
}

// How an END's entry of the block stack is marked.
#[derive(Clone, Copy)]
pub enum EndBlockStackEntryKind {
    Continuation,
    LoopContinuation,
    CallerFrame,
}

#[derive(Clone, Copy)]
pub struct EndBlockFlags {
    pub is_loop_body: bool,
    pub entry_kind: EndBlockStackEntryKind,
}

impl EndBlockFlags {
    // h4 to h7 of an END.
    #[tactic(auto, unfolding(crate::specs::records::DecoderRows::end_word))]
    pub fn to_hasher_state_second_word(self) -> Word
        ensures { result ≡ end_word self }
    {
        let body = u64::from(self.is_loop_body);
        match self.entry_kind {
            EndBlockStackEntryKind::Continuation => Word(body, Felt::ZERO, Felt::ZERO, Felt::ZERO),
            EndBlockStackEntryKind::LoopContinuation => Word(
                body,
                Felt::ONE,
                Felt::ZERO,
                Felt::ZERO,
            ),
            EndBlockStackEntryKind::CallerFrame => Word(body, Felt::ZERO, Felt::ONE, Felt::ZERO),
        }
    }
}

impl DecoderRow {
    // A start, REPEAT or END row.
    #[tactic(auto, unfolding(crate::specs::records::DecoderRows::control_flow))]
    pub fn new_control_flow(opcode: u8, first: Word, second: Word, addr: u64) -> Self
        ensures { result ≡ control_flow opcode first second addr }
    {
        Self {
            addr,
            opcode,
            hasher_state_first_word: first,
            hasher_state_second_word: second,
            in_basic_block: Felt::ZERO,
            group_count: Felt::ZERO,
            op_index: Felt::ZERO,
            op_batch_flags: BatchFlags(Felt::ZERO, Felt::ZERO, Felt::ZERO),
        }
    }

    // A SPAN or RESPAN row.
    #[tactic(auto, unfolding(crate::specs::records::DecoderRows::basic_block_batch))]
    pub fn new_basic_block_batch(
        opcode: u8,
        batch: OpBatch,
        addr: u64,
        group_count: u64,
        batch_flags: BatchFlags,
    ) -> Self
        ensures { result ≡ basic_block_batch opcode batch addr group_count batch_flags }
    {
        Self {
            addr,
            opcode,
            hasher_state_first_word: batch.low,
            hasher_state_second_word: batch.high,
            in_basic_block: Felt::ZERO,
            group_count,
            op_index: Felt::ZERO,
            op_batch_flags: batch_flags,
        }
    }

    // An operation's row.
    #[tactic(auto, unfolding(crate::specs::records::DecoderRows::operation))]
    pub fn new_operation(
        opcode: u8,
        addr: u64,
        parent_addr: u64,
        op_index: u64,
        group: u64,
        group_count: u64,
        helpers: UserOpHelpers,
    ) -> Self
        ensures { result ≡ operation opcode addr parent_addr op_index group group_count helpers }
    {
        Self {
            addr,
            opcode,
            hasher_state_first_word: Word(group, parent_addr, helpers.h2, helpers.h3),
            hasher_state_second_word: Word(helpers.h4, helpers.h5, helpers.h6, helpers.h7),
            in_basic_block: Felt::ONE,
            group_count,
            op_index,
            op_batch_flags: BatchFlags(Felt::ZERO, Felt::ZERO, Felt::ZERO),
        }
    }
}
