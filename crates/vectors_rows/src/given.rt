// The records of a call, each from the numbers that begin a list, where kinds and what is absent are numbers.

use groups::word::Word;
use rows::cycles::tracer::CoreTraceGenerationTracer;
use rows::records::address_state::{DecoderState, Positions};
use rows::records::continuation::{Captured, Continuation, ExecutionContextInfo, StoredValues};
use rows::records::ids::{ContextId, MastNodeId, RowIndex};
use rows::records::state::{StackCols, StackState, SystemCols, SystemState};
use vectors_shared::numbers::Numbers;

// A continuation by its number from 1 on and up to three numbers.
fn continuation_of(list: Numbers<'_>) -> Continuation {
    let node_id = MastNodeId(list.item(1));
    match list.number(0) {
        1 => Continuation::StartNode(node_id),
        2 => Continuation::FinishJoin(node_id),
        3 => Continuation::FinishSplit(node_id),
        4 => Continuation::FinishLoop(node_id),
        5 => Continuation::FinishCall(node_id),
        6 => Continuation::FinishDyn(node_id),
        7 => Continuation::ResumeBasicBlock {
            node_id,
            batch_index: list.item(2),
            op_idx_in_batch: list.item(3),
        },
        8 => Continuation::Respan {
            node_id,
            batch_index: list.item(2),
        },
        9 => Continuation::FinishBasicBlock(node_id),
        _ => Continuation::EnterForest,
    }
}

// 0: absent, 1: zero, 2: one.
fn condition_of(number: u64) -> Option<bool> {
    (number != 0).then_some(number == 2)
}

// Four cells, as they stand.
fn word_of(list: Numbers<'_>) -> Word {
    Word(
        list.number(0),
        list.number(1),
        list.number(2),
        list.number(3),
    )
}

// The condition, the callee word (present or not, and its cells) and the context info (present or not, depth, address).
fn captured_of(list: Numbers<'_>) -> Captured {
    let callee = word_of(list.behind(2));
    let info = ExecutionContextInfo {
        stack_depth: list.item(7),
        next_overflow_addr: list.number(8),
    };
    Captured {
        finish_loop_condition: condition_of(list.number(0)),
        dyn_callee_hash: (list.number(1) != 0).then_some(callee),
        ctx_info: (list.number(6) != 0).then_some(info),
    }
}

// Fourteen numbers: the continuation's four, the loop-body flag, and the captured values.
pub fn values_of(list: Numbers<'_>) -> StoredValues {
    StoredValues {
        continuation: continuation_of(list),
        is_loop_body: list.number(4) != 0,
        captured: captured_of(list.behind(5)),
    }
}

// Current and parent address.
pub fn state_of(list: Numbers<'_>) -> DecoderState {
    DecoderState {
        current_addr: list.number(0),
        parent_addr: list.number(1),
    }
}

// The positions in the queues.
pub fn positions_of(list: Numbers<'_>) -> Positions {
    Positions {
        addresses: list.item(0),
        parents: list.item(1),
        ends: list.item(2),
    }
}

fn built_system_of(list: Numbers<'_>) -> SystemCols {
    SystemCols {
        clk: list.number(0),
        ctx: list.number(1),
        fn_hash: word_of(list.behind(2)),
    }
}

fn built_stack_of(list: Numbers<'_>) -> StackCols {
    StackCols {
        top: list.array(),
        b0: list.number(16),
        b1: list.number(17),
        h0: list.number(18),
    }
}

// A tracer from 46 numbers: the kept refusal, the rows, fourteen of what is stored (a continuation 0: nothing), the two addresses, the
// three positions, and the 25 cells built last.
pub fn tracer_of(list: Numbers<'_>) -> CoreTraceGenerationTracer {
    let values = values_of(list.behind(2));
    CoreTraceGenerationTracer {
        refusal: list.item(0),
        row_write_index: list.item(1),
        continuation: (list.number(2) != 0).then_some(values.continuation),
        is_loop_body: values.is_loop_body,
        captured: values.captured,
        decoder_state: state_of(list.behind(16)),
        at: positions_of(list.behind(18)),
        system_cols: built_system_of(list.behind(21)),
        stack_cols: built_stack_of(list.behind(27)),
    }
}

// clk, ctx and four cells of fn_hash.
pub fn system_of(list: Numbers<'_>) -> SystemState {
    SystemState {
        clk: RowIndex(list.item(0)),
        ctx: ContextId(list.item(1)),
        fn_hash: word_of(list.behind(2)),
    }
}

// The top 16 elements, last first, the depth and the overflow address.
pub fn stack_of(list: Numbers<'_>) -> StackState {
    StackState {
        stack_top: list.array(),
        stack_depth: list.item(16),
        overflow_addr: list.number(17),
    }
}
