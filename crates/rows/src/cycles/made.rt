// What a continuation makes of the forest, the queues and the tracer: a decoder row, the address state and queue positions after it,
// and which captured values it used up; or the refusal. Nothing here reads or writes a fragment.
ghost use Rattle.std.specs.Prelude.{◌≡◌};
ghost use Rattle.groups.specs.Constants.{wrong_node_kind};
ghost use Rattle.groups.specs.Refusals.{told, told_or};
ghost use Rattle.rows.specs.records.Lent.{lent_forest, lent_queues};
ghost use Rattle.rows.specs.cycles.Made.{entry_kind, call_kind, dyn_kind, start_block, start_two, start_one, start_dyn, start_dyncall, start_kind, start_node, made_end, made_repeat, finish_loop, operation_made, resumed, made_respan, made};
ghost use Rattle.rows.specs.ways.Inner.{row_made};

use crate::records::address_state::{Cursor, DecoderState, LentQueues, Positions, respan_step};
use crate::records::continuation::{Captured, Continuation, ExecutionContextInfo, Used};
use crate::records::decoder_row::{DecoderRow, EndBlockFlags, EndBlockStackEntryKind};
use crate::records::forest::{LentForest, MastNode};
use crate::records::ids::MastNodeId;
use crate::records::profile::Profile;
use field::felt::Felt;
use groups::batch::{BasicBlockNode, LentBatches};
use groups::context::{BasicBlockContext, OpContext};
use groups::flags::get_op_batch_flags;
use groups::helpers::OperationHelperRegisters;
use groups::refusal::Refusal;
use groups::word::Word;

// A row, the address state and positions after it, and what it uses up.
#[derive(Clone, Copy)]
pub struct MadeRow {
    pub row: DecoderRow,
    pub state: DecoderState,
    pub at: Positions,
    pub used: Used,
    // How many operations follow in the operation's group; 0 where the row is no operation's.
    pub following: u64,
}

// The kinds of END, by the continuation: of any node, of a loop, of a call, of a dyn, of a block.
#[derive(Clone, Copy)]
pub enum Finish {
    Any,
    Loop,
    Call,
    Dyn,
    Block,
}

// What an END's row is given besides its node: its opcode, whether it ends a loop's body, and what it uses up.
#[derive(Clone, Copy)]
struct EndGiven {
    opcode: u8,
    is_loop_body: bool,
    used: Used,
}

// A row that is no operation's.
fn row_made(row: DecoderRow, here: Cursor, used: Used) -> MadeRow
    ensures { result ≡ row_made row here used }
{
    MadeRow {
        row,
        state: here.state,
        at: here.at,
        used,
        following: 0,
    }
}

// The kinds of END and the rows below are functions of the names of their definitions: they differ in what they refuse and write, not in a value.
#[tactic(auto, unfolding(crate::specs::cycles::Made::call_kind))]
fn call_kind(node: MastNode) -> Option<EndBlockStackEntryKind>
    ensures { told_or wrong_node_kind result ≡ call_kind node }
{
    match node {
        MastNode::Call(_) | MastNode::Syscall(_) => Some(EndBlockStackEntryKind::CallerFrame),
        _ => None,
    }
}

#[tactic(auto, unfolding(crate::specs::cycles::Made::dyn_kind))]
fn dyn_kind(node: MastNode) -> Option<EndBlockStackEntryKind>
    ensures { told_or wrong_node_kind result ≡ dyn_kind node }
{
    match node {
        MastNode::Dyn => Some(EndBlockStackEntryKind::Continuation),
        MastNode::Dyncall => Some(EndBlockStackEntryKind::CallerFrame),
        _ => None,
    }
}

// How the END of a node is marked, where the continuation is for this kind of node.
#[tactic(auto, unfolding(crate::specs::cycles::Made::entry_kind, crate::specs::cycles::Made::block_kind, crate::specs::records::Forests::block_of))]
fn entry_kind(finish: Finish, node: MastNode) -> Option<EndBlockStackEntryKind>
    ensures { told_or wrong_node_kind result ≡ entry_kind finish node }
{
    match finish {
        Finish::Any => Some(EndBlockStackEntryKind::Continuation),
        Finish::Loop => Some(EndBlockStackEntryKind::LoopContinuation),
        Finish::Call => call_kind(node),
        Finish::Dyn => dyn_kind(node),
        Finish::Block => {
            node.as_block()?;
            Some(EndBlockStackEntryKind::Continuation)
        }
    }
}

// SPAN: 5 if the block has no batch, then 7.
#[tactic(auto, unfolding(crate::specs::cycles::Made::start_block))]
fn start_block(
    batches: &LentBatches,
    span: u8,
    block: BasicBlockNode,
    here: Cursor,
) -> Result<MadeRow, Refusal>
    ensures { told result ≡ start_block batches.now.records.now batches.now.groups.now span block here }
{
    let Some(batch) = batches.batch_at(block, 0) else {
        return Err(Refusal::NoSuchBatch);
    };
    let count = u64::from(block.total);
    let Some(flags) = get_op_batch_flags(count) else {
        return Err(Refusal::BadGroupCount);
    };
    let row = DecoderRow::new_basic_block_batch(span, batch, here.state.parent_addr, count, flags);
    Ok(row_made(row, here, Used::Nothing))
}

// JOIN and SPLIT: 3 for each child, first child first.
#[tactic(auto, unfolding(crate::specs::cycles::Made::start_two))]
fn start_two(
    forest: &LentForest,
    opcode: u8,
    first: MastNodeId,
    second: MastNodeId,
    here: Cursor,
) -> Result<MadeRow, Refusal>
    ensures { told result ≡ start_two forest.now.nodes.now forest.now.digests.now opcode first second here }
{
    let a = forest.digest_at(first).ok_or(Refusal::NoSuchNode)?;
    let b = forest.digest_at(second).ok_or(Refusal::NoSuchNode)?;
    let row = DecoderRow::new_control_flow(opcode, a, b, here.state.parent_addr);
    Ok(row_made(row, here, Used::Nothing))
}

// LOOP and CALL: 3 for the child.
#[tactic(auto, unfolding(crate::specs::cycles::Made::start_one))]
fn start_one(
    forest: &LentForest,
    opcode: u8,
    child: MastNodeId,
    here: Cursor,
) -> Result<MadeRow, Refusal>
    ensures { told result ≡ start_one forest.now.nodes.now forest.now.digests.now opcode child here }
{
    let a = forest.digest_at(child).ok_or(Refusal::NoSuchNode)?;
    let second = Word(Felt::ZERO, Felt::ZERO, Felt::ZERO, Felt::ZERO);
    let row = DecoderRow::new_control_flow(opcode, a, second, here.state.parent_addr);
    Ok(row_made(row, here, Used::Nothing))
}

// DYN: 23 for the callee word.
#[tactic(auto, unfolding(crate::specs::cycles::Made::start_dyn))]
fn start_dyn(opcode: u8, callee: Option<Word>, here: Cursor) -> Result<MadeRow, Refusal>
    ensures { told result ≡ start_dyn opcode callee here }
{
    let word = callee.ok_or(Refusal::StoredAbsent)?;
    let second = Word(Felt::ZERO, Felt::ZERO, Felt::ZERO, Felt::ZERO);
    let row = DecoderRow::new_control_flow(opcode, word, second, here.state.parent_addr);
    Ok(row_made(row, here, Used::Callee))
}

// DYNCALL: 23 for the callee word, then for the context info.
#[tactic(auto, unfolding(crate::specs::cycles::Made::start_dyncall))]
fn start_dyncall(
    opcode: u8,
    callee: Option<Word>,
    info: Option<ExecutionContextInfo>,
    here: Cursor,
) -> Result<MadeRow, Refusal>
    ensures { told result ≡ start_dyncall opcode callee info here }
{
    let word = callee.ok_or(Refusal::StoredAbsent)?;
    let context = info.ok_or(Refusal::StoredAbsent)?;
    let second = Word(
        u64::from(context.stack_depth),
        context.next_overflow_addr,
        Felt::ZERO,
        Felt::ZERO,
    );
    let row = DecoderRow::new_control_flow(opcode, word, second, here.state.parent_addr);
    Ok(row_made(row, here, Used::CalleeAndInfo))
}

// The start row of a node, by its kind; 4 for an external node, 31 for a SYSCALL node.
#[tactic(auto, unfolding(crate::specs::cycles::Made::start_kind))]
fn start_kind(
    forest: &LentForest,
    profile: Profile,
    node: MastNode,
    captured: Captured,
    here: Cursor,
) -> Result<MadeRow, Refusal>
    ensures { told result ≡ start_kind forest.now.nodes.now forest.now.digests.now forest.now.batches.records.now forest.now.batches.groups.now
        profile node captured here }
{
    let callee = captured.dyn_callee_hash;
    match node {
        MastNode::Block(block) => start_block(&forest.batches, profile.span, block, here),
        MastNode::Join(a, b) => start_two(forest, profile.join, a, b, here),
        MastNode::Split(a, b) => start_two(forest, profile.split, a, b, here),
        MastNode::Loop(a) => start_one(forest, profile.loop_op, a, here),
        MastNode::Call(a) => start_one(forest, profile.call, a, here),
        MastNode::Syscall(_) => Err(Refusal::SyscallStart),
        MastNode::Dyn => start_dyn(profile.dyn_op, callee, here),
        MastNode::Dyncall => start_dyncall(profile.dyncall, callee, captured.ctx_info, here),
        MastNode::External => Err(Refusal::WrongNodeKind),
    }
}

// StartNode: 20, 21, then 3, then by kind.
#[tactic(auto, unfolding(crate::specs::cycles::Made::start_node, crate::specs::records::Addresses::start_answer, crate::specs::records::Addresses::start_state))]
fn start_node(
    forest: &LentForest,
    queues: &LentQueues,
    profile: Profile,
    id: MastNodeId,
    captured: Captured,
    here: Cursor,
) -> Result<MadeRow, Refusal>
    ensures { told result ≡ start_node forest.now.nodes.now forest.now.digests.now forest.now.batches.records.now forest.now.batches.groups.now
        queues.now.addresses.now queues.now.parents.now profile id captured here }
{
    let mut state = here.state;
    let at = state.replay_node_start(queues, here.at)?;
    let Some(entry) = forest.node_at(id) else {
        return Err(Refusal::NoSuchNode);
    };
    start_kind(forest, profile, entry.node, captured, Cursor { state, at })
}

// END: 3, 4 where the continuation is for one kind of node, 22.
#[tactic(auto, unfolding(crate::specs::cycles::Made::made_end, crate::specs::records::Addresses::end_answer))]
fn finish_node(
    forest: &LentForest,
    queues: &LentQueues,
    given: EndGiven,
    id: MastNodeId,
    finish: Finish,
    here: Cursor,
) -> Result<MadeRow, Refusal>
    ensures { told result ≡ made_end forest.now.nodes.now forest.now.digests.now queues.now.ends.now given.opcode id finish
        given.is_loop_body given.used here }
{
    let Some(entry) = forest.node_at(id) else {
        return Err(Refusal::NoSuchNode);
    };
    let Some(entry_kind) = entry_kind(finish, entry.node) else {
        return Err(Refusal::WrongNodeKind);
    };
    let mut state = here.state;
    let (addr, at) = state.replay_node_end(queues, here.at)?;
    let flags = EndBlockFlags {
        is_loop_body: given.is_loop_body,
        entry_kind,
    };
    let second = flags.to_hasher_state_second_word();
    let row = DecoderRow::new_control_flow(given.opcode, entry.digest, second, addr);
    Ok(row_made(row, Cursor { state, at }, given.used))
}

// REPEAT: 3, 4, and 3 for the body's digest.
#[tactic(auto, unfolding(crate::specs::cycles::Made::made_repeat, crate::specs::cycles::Made::body_of))]
fn repeat_row(
    forest: &LentForest,
    repeat: u8,
    id: MastNodeId,
    here: Cursor,
) -> Result<MadeRow, Refusal>
    ensures { told result ≡ made_repeat forest.now.nodes.now forest.now.digests.now repeat id here }
{
    let Some(entry) = forest.node_at(id) else {
        return Err(Refusal::NoSuchNode);
    };
    let MastNode::Loop(body) = entry.node else {
        return Err(Refusal::WrongNodeKind);
    };
    let digest = forest.digest_at(body).ok_or(Refusal::NoSuchNode)?;
    let second = Word(Felt::ONE, Felt::ZERO, Felt::ZERO, Felt::ZERO);
    let row = DecoderRow::new_control_flow(repeat, digest, second, here.state.current_addr);
    Ok(row_made(row, here, Used::Condition))
}

// FinishLoop: 23 if there is no condition; REPEAT at one, END at zero.
#[tactic(auto, unfolding(crate::specs::cycles::Made::finish_loop))]
fn finish_loop(
    forest: &LentForest,
    queues: &LentQueues,
    profile: Profile,
    id: MastNodeId,
    condition: Option<bool>,
    is_loop_body: bool,
    here: Cursor,
) -> Result<MadeRow, Refusal>
    ensures { told result ≡ finish_loop forest.now.nodes.now forest.now.digests.now queues.now.ends.now profile id condition
        is_loop_body here }
{
    let again = condition.ok_or(Refusal::StoredAbsent)?;
    if again {
        return repeat_row(forest, profile.repeat, id, here);
    }
    let given = EndGiven {
        opcode: profile.end,
        is_loop_body,
        used: Used::Condition,
    };
    finish_node(forest, queues, given, id, Finish::Loop, here)
}

// An operation's row in its context: 9.
#[tactic(auto, unfolding(crate::specs::cycles::Made::operation_made))]
fn operation_row(
    opcode: u8,
    found: OpContext,
    registers: OperationHelperRegisters,
    here: Cursor,
) -> Result<MadeRow, Refusal>
    ensures { told result ≡ operation_made opcode found registers here }
{
    let helpers = registers.to_user_op_helpers()?;
    let row = DecoderRow::new_operation(
        opcode,
        here.state.current_addr,
        here.state.parent_addr,
        found.place.index,
        found.context.current_op_group,
        found.context.group_count_in_block,
        helpers,
    );
    Ok(MadeRow {
        row,
        state: here.state,
        at: here.at,
        used: Used::Nothing,
        following: found.place.following,
    })
}

// ResumeBasicBlock: 3, 4, 5, 6, 8, 9.
#[tactic(auto, unfolding(crate::specs::cycles::Made::resumed))]
fn resume(
    forest: &LentForest,
    push: u8,
    id: MastNodeId,
    index: u32,
    op: u32,
    registers: OperationHelperRegisters,
    here: Cursor,
) -> Result<MadeRow, Refusal>
    ensures { told result ≡ resumed (lent_forest forest.now) push id index op registers here }
{
    let Some(entry) = forest.node_at(id) else {
        return Err(Refusal::NoSuchNode);
    };
    let Some(block) = entry.node.as_block() else {
        return Err(Refusal::WrongNodeKind);
    };
    let Some(batch) = forest.batches.batch_at(block, index) else {
        return Err(Refusal::NoSuchBatch);
    };
    let opcode = forest.opcode_at(batch, op).ok_or(Refusal::NoSuchOperation)?;
    let context = BasicBlockContext::new_at_op(push, &forest.batches, block, index, op)?;
    operation_row(opcode, context, registers, here)
}

// Respan: 3, 4, 5, 7.
#[tactic(auto, unfolding(crate::specs::cycles::Made::made_respan))]
fn respan(
    forest: &LentForest,
    profile: Profile,
    id: MastNodeId,
    index: u32,
    here: Cursor,
) -> Result<MadeRow, Refusal>
    ensures { told result ≡ made_respan forest.now.nodes.now forest.now.digests.now forest.now.batches.records.now forest.now.batches.groups.now
        profile.respan profile.step id index here }
{
    let Some(entry) = forest.node_at(id) else {
        return Err(Refusal::NoSuchNode);
    };
    let Some(block) = entry.node.as_block() else {
        return Err(Refusal::WrongNodeKind);
    };
    let found = BasicBlockContext::new_at_batch_start(&forest.batches, block, index)?;
    let row = DecoderRow::new_basic_block_batch(
        profile.respan,
        found.batch,
        here.state.current_addr,
        found.context.group_count_in_block,
        found.flags,
    );
    let behind = Cursor {
        state: respan_step(here.state, profile.step),
        at: here.at,
    };
    Ok(row_made(row, behind, Used::Nothing))
}

// What the continuation makes; 4 for EnterForest.
#[tactic(auto, unfolding(crate::specs::cycles::Made::made))]
pub fn make(
    forest: &LentForest,
    queues: &LentQueues,
    profile: Profile,
    registers: OperationHelperRegisters,
    continuation: Continuation,
    is_loop_body: bool,
    captured: Captured,
    here: Cursor,
) -> Result<MadeRow, Refusal>
    ensures { told result ≡ made (lent_forest forest.now) (lent_queues queues.now)
        profile registers continuation is_loop_body captured here }
{
    let given = EndGiven {
        opcode: profile.end,
        is_loop_body,
        used: Used::Nothing,
    };
    match continuation {
        Continuation::StartNode(id) => start_node(forest, queues, profile, id, captured, here),
        Continuation::FinishJoin(id) | Continuation::FinishSplit(id) => {
            finish_node(forest, queues, given, id, Finish::Any, here)
        }
        Continuation::FinishLoop(id) => {
            let condition = captured.finish_loop_condition;
            finish_loop(forest, queues, profile, id, condition, is_loop_body, here)
        }
        Continuation::FinishCall(id) => finish_node(forest, queues, given, id, Finish::Call, here),
        Continuation::FinishDyn(id) => finish_node(forest, queues, given, id, Finish::Dyn, here),
        Continuation::ResumeBasicBlock {
            node_id,
            batch_index,
            op_idx_in_batch: op,
        } => {
            let push = profile.push;
            resume(forest, push, node_id, batch_index, op, registers, here)
        }
        Continuation::Respan {
            node_id,
            batch_index,
        } => respan(forest, profile, node_id, batch_index, here),
        Continuation::FinishBasicBlock(id) => {
            finish_node(forest, queues, given, id, Finish::Block, here)
        }
        Continuation::EnterForest => Err(Refusal::WrongNodeKind),
    }
}
