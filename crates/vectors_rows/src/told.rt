// The numbers of a tracer and of a final state, in the order of the lists, where kinds and what is absent are numbers.
use groups::word::Word;
use rows::cycles::tracer::{CoreTraceGenerationTracer, TracerFinalState};
use rows::records::continuation::{Captured, Continuation, ExecutionContextInfo};
use rows::records::ids::MastNodeId;
use rows::records::state::{StackCols, SystemCols};

fn of_node(kind: u64, id: MastNodeId) -> [u64; 4] {
    [kind, u64::from(id.0), 0, 0]
}

// A continuation's number and its three.
fn continuation_numbers(continuation: Continuation) -> [u64; 4] {
    match continuation {
        Continuation::StartNode(id) => of_node(1, id),
        Continuation::FinishJoin(id) => of_node(2, id),
        Continuation::FinishSplit(id) => of_node(3, id),
        Continuation::FinishLoop(id) => of_node(4, id),
        Continuation::FinishCall(id) => of_node(5, id),
        Continuation::FinishDyn(id) => of_node(6, id),
        Continuation::ResumeBasicBlock {
            node_id,
            batch_index,
            op_idx_in_batch,
        } => [
            7,
            u64::from(node_id.0),
            u64::from(batch_index),
            u64::from(op_idx_in_batch),
        ],
        Continuation::Respan {
            node_id,
            batch_index,
        } => [8, u64::from(node_id.0), u64::from(batch_index), 0],
        Continuation::FinishBasicBlock(id) => of_node(9, id),
        Continuation::EnterForest => [10, 0, 0, 0],
    }
}

// 0: absent, 1: zero, 2: one.
fn condition_number(condition: Option<bool>) -> u64 {
    match condition {
        None => 0,
        Some(flag) => 1 + u64::from(flag),
    }
}

// Whether there is a callee word, and its cells.
fn callee_numbers(callee: Option<Word>) -> [u64; 5] {
    match callee {
        None => [0; 5],
        Some(word) => [1, word.0, word.1, word.2, word.3],
    }
}

// Whether there is a context info, its depth and its address.
fn info_numbers(info: Option<ExecutionContextInfo>) -> [u64; 3] {
    match info {
        None => [0; 3],
        Some(info) => [1, u64::from(info.stack_depth), info.next_overflow_addr],
    }
}

// The condition, the callee word and the context info.
fn captured_numbers(captured: Captured) -> [u64; 9] {
    let mut numbers = [0; 9];
    numbers[0] = condition_number(captured.finish_loop_condition);
    numbers[1..6].copy_from_slice(&callee_numbers(captured.dyn_callee_hash));
    numbers[6..].copy_from_slice(&info_numbers(captured.ctx_info));
    numbers
}

// The 25 cells built last.
fn built_numbers(system: SystemCols, stack: StackCols) -> [u64; 25] {
    let hash = system.fn_hash;
    let mut numbers = [0; 25];
    numbers[..6].copy_from_slice(&[system.clk, system.ctx, hash.0, hash.1, hash.2, hash.3]);
    numbers[6..22].copy_from_slice(&stack.top);
    numbers[22..].copy_from_slice(&[stack.b0, stack.b1, stack.h0]);
    numbers
}

// The 46 numbers of a tracer.
pub fn tracer_numbers(tracer: CoreTraceGenerationTracer) -> [u64; 46] {
    let state = tracer.decoder_state;
    let at = tracer.at;
    let built = built_numbers(tracer.system_cols, tracer.stack_cols);
    let mut numbers = [0; 46];
    numbers[0] = u64::from(tracer.refusal);
    numbers[1] = tracer.row_write_index as u64;
    if let Some(continuation) = tracer.continuation {
        numbers[2..6].copy_from_slice(&continuation_numbers(continuation));
    }
    numbers[6] = u64::from(tracer.is_loop_body);
    numbers[7..16].copy_from_slice(&captured_numbers(tracer.captured));
    numbers[16] = state.current_addr;
    numbers[17] = state.parent_addr;
    numbers[18] = at.addresses as u64;
    numbers[19] = at.parents as u64;
    numbers[20] = at.ends as u64;
    numbers[21..].copy_from_slice(&built);
    numbers
}

// The 25 cells and the row count of a final state, and the count that the passes take.
pub fn final_numbers(end: TracerFinalState) -> [u64; 27] {
    let built = built_numbers(end.last_system_cols, end.last_stack_cols);
    let mut numbers = [0; 27];
    numbers[..25].copy_from_slice(&built);
    numbers[25] = end.num_rows_written as u64;
    numbers[26] = u64::from(end.for_passes().count);
    numbers
}
