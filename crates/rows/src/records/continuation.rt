// What is stored for a cycle.
ghost use Rattle.std.specs.Prelude.{◌≡◌};
ghost use Rattle.rows.specs.records.Captured.{read_context, read_captured};

use crate::records::ids::MastNodeId;
use field::felt::reduce;
use groups::word::{Word, read_word};

#[derive(Clone, Copy)]
pub enum Continuation {
    StartNode(MastNodeId),
    FinishJoin(MastNodeId),
    FinishSplit(MastNodeId),
    FinishLoop(MastNodeId),
    FinishCall(MastNodeId),
    FinishDyn(MastNodeId),
    ResumeBasicBlock {
        node_id: MastNodeId,
        batch_index: u32,
        op_idx_in_batch: u32,
    },
    Respan {
        node_id: MastNodeId,
        batch_index: u32,
    },
    FinishBasicBlock(MastNodeId),
    EnterForest,
}

// The depth and the next overflow address of a DYNCALL.
#[derive(Clone, Copy)]
pub struct ExecutionContextInfo {
    pub stack_depth: u32,
    pub next_overflow_addr: u64,
}

impl ExecutionContextInfo {
    // The next overflow address read modulo p.
    fn read(self) -> Self
        ensures { result ≡ read_context self }
    {
        Self {
            stack_depth: self.stack_depth,
            next_overflow_addr: reduce(self.next_overflow_addr),
        }
    }
}

// The captured values that a row uses up: the condition of a FinishLoop (another pass, or the loop's end), the callee word of a DYN or
// DYNCALL, and the context of a DYNCALL.
#[derive(Clone, Copy)]
pub struct Captured {
    pub finish_loop_condition: Option<bool>,
    pub dyn_callee_hash: Option<Word>,
    pub ctx_info: Option<ExecutionContextInfo>,
}

impl Captured {
    // The captured values with their cells read modulo p.
    #[tactic(auto, unfolding(crate::specs::records::Captured::read_captured))]
    pub fn read(self) -> Self
        ensures { result ≡ read_captured self }
    {
        Self {
            finish_loop_condition: self.finish_loop_condition,
            dyn_callee_hash: self.dyn_callee_hash.map(read_word),
            ctx_info: self.ctx_info.map(ExecutionContextInfo::read),
        }
    }
}

// What storing is given.
#[derive(Clone, Copy)]
pub struct StoredValues {
    pub continuation: Continuation,
    pub is_loop_body: bool,
    pub captured: Captured,
}

// Which captured values a row used up.
#[derive(Clone, Copy)]
pub enum Used {
    Nothing,
    Condition,
    Callee,
    CalleeAndInfo,
}
