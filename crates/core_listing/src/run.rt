// C10's run: "a loop at address 1 under 0, two passes of a one-group block at 3 and 5 with the operation 5, height 10". Node 0 is the loop,
// node 1 its body.
use groups::batch::LentBatches;
use groups::helpers::OperationHelperRegisters;
use groups::word::Word;
use rows::cycles::cycle::finalize_clock_cycle;
use rows::cycles::tracer::{CoreTraceGenerationTracer, TracerFinalState};
use rows::passes::finish::finish;
use rows::passes::fragments::Fragments;
use rows::records::address_state::{DecoderState, LentQueues, Positions};
use rows::records::continuation::{Captured, Continuation, StoredValues};
use rows::records::forest::LentForest;
use rows::records::ids::{ContextId, MastNodeId, RowIndex};
use rows::records::profile::Profile;
use rows::records::state::{StackState, SystemState};

const LOOP: MastNodeId = MastNodeId(0);

const BODY: MastNodeId = MastNodeId(1);

// The opcodes of the Miden VM documentation's decoder chapter, and a step of 2.
pub const PROFILE: Profile = Profile {
    span: 86,
    respan: 120,
    join: 87,
    split: 84,
    loop_op: 85,
    repeat: 116,
    call: 108,
    syscall: 104,
    dyn_op: 88,
    dyncall: 92,
    push: 91,
    end: 112,
    halt: 124,
    step: 2,
};

fn forest() -> LentForest<'static> {
    LentForest {
        nodes: &[5, 1, 0, 0, 0, 0, 2, 0, 0, 1, 0, 1],
        digests: &[10, 11, 12, 13, 20, 21, 22, 23],
        batches: LentBatches {
            records: &[1, 0, 1, 1, 1, 1, 1, 1, 1, 1, 1, 0],
            groups: &[5, 0, 0, 0, 0, 0, 0, 0],
        },
        ops: &[5],
    }
}

fn queues() -> LentQueues<'static> {
    LentQueues {
        addresses: &[1, 3, 5],
        parents: &[0, 1, 1],
        ends: &[3, 1, 0, 5, 1, 0, 1, 0, 0],
    }
}

// What is stored for a cycle: a continuation, the flag of a loop's body, and the condition of a loop.
fn stored(continuation: Continuation, is_loop_body: bool, again: Option<bool>) -> StoredValues {
    StoredValues {
        continuation,
        is_loop_body,
        captured: Captured {
            finish_loop_condition: again,
            dyn_callee_hash: None,
            ctx_info: None,
        },
    }
}

// One pass of the body, from its start over its operation and its END to the loop's next REPEAT or END, which `again` tells apart.
fn pass(again: bool) -> [StoredValues; 4] {
    let operation = Continuation::ResumeBasicBlock {
        node_id: BODY,
        batch_index: 0,
        op_idx_in_batch: 0,
    };
    [
        stored(Continuation::StartNode(BODY), false, None),
        stored(operation, false, None),
        stored(Continuation::FinishBasicBlock(BODY), true, None),
        stored(Continuation::FinishLoop(LOOP), false, Some(again)),
    ]
}

fn system_at(clk: u32) -> SystemState {
    SystemState {
        clk: RowIndex(clk),
        ctx: ContextId(0),
        fn_hash: Word(0, 0, 0, 0),
    }
}

fn fresh_tracer() -> CoreTraceGenerationTracer {
    let state = DecoderState {
        current_addr: 0,
        parent_addr: 0,
    };
    let at = Positions {
        addresses: 0,
        parents: 0,
        ends: 0,
    };
    CoreTraceGenerationTracer::new(state, at)
}

// The nine cycles on a fresh tracer, and its final state. A refusal is kept by the tracer, and each later call answers it.
fn run(profile: Profile, fragment: &mut [u64]) -> TracerFinalState {
    let stack = StackState {
        stack_top: [0; 16],
        stack_depth: 16,
        overflow_addr: 0,
    };
    let mut tally = [0u64; 512];
    let mut tracer = fresh_tracer();
    let start = [stored(Continuation::StartNode(LOOP), false, None)];
    let first = pass(true);
    let second = pass(false);
    for (clk, values) in (0..).zip(start.iter().chain(&first).chain(&second)) {
        let finished = finalize_clock_cycle(
            &forest(),
            &queues(),
            profile,
            system_at(clk),
            stack,
            OperationHelperRegisters::Empty,
            tracer.start_clock_cycle(*values).tracer,
            &mut tally,
            fragment,
        );
        tracer = finished.tracer;
    }
    tracer.into_final_state()
}

// The run in one fragment of ten rows, finished to height 10. An error is the number of the first refusal, as the tracer keeps it.
pub fn write_trace(profile: Profile, cells: &mut [u64]) -> Result<(), u32> {
    let last = run(profile, cells);
    if last.refusal != 0 {
        return Err(last.refusal);
    }
    let end = last.for_passes();
    let fragments = Fragments {
        size: 10,
        counts: &[end.count],
        built: &end.built,
    };
    finish(profile, cells, &fragments, [0; 16], 10).map_err(u32::from)
}
