// A call lent as a record of 32 numbers. Number 0 says which: 0 a storing, 1 to 18 a cycle with that case of helper registers.
// Each function here is lent the one record. Cells among its numbers are read modulo p; nothing comes of numbers that a record's kind does
// not name.
// A kind is a number in a record, as C writes it; here it becomes an enum. Each function is the definition of the same name.
ghost use Rattle.std.specs.Prelude.{◌≡◌};
ghost use Rattle.groups.specs.Constants.{stored_absent};
ghost use Rattle.groups.specs.Refusals.{told, told_or};
ghost use Rattle.rows.specs.records.CallRecords.{ReadAs32, condition_in, callee_in, info_in, resume_in, respan_in, continuation_on, names_no_kind, continuation_in, names_nothing, stored_in_record, system_in, stack_in, few_cells, many_cells, registers_in};

use crate::records::continuation::{Captured, Continuation, ExecutionContextInfo, StoredValues};
use crate::records::ids::{ContextId, MastNodeId, RowIndex};
use crate::records::state::{StackState, SystemState};
use field::cell::{cell, item_or};
use groups::helpers::OperationHelperRegisters;
use groups::refusal::Refusal;
use groups::word::{QuadFelt, Word, word_at};

// The number, where it has 32 bits.
#[tactic(auto, unfolding(crate::specs::records::CallRecords::of32))]
pub fn narrow(x: u64) -> Option<u32>
    ensures { ReadAs32 result x }
{
    match u32::try_from(x) {
        Ok(number) => Some(number),
        Err(_) => None,
    }
}

// Number 6: 0 absent, 1 zero, 2 one.
#[tactic(auto, unfolding(crate::specs::records::CallRecords::condition_in))]
fn condition_at(numbers: &[u64]) -> Option<bool>
    ensures { result ≡ condition_in numbers.now }
{
    match item_or(numbers, 6, 0) {
        0 => None,
        condition => Some(condition == 2),
    }
}

// Number 7: 1 present; the word is numbers 8 to 11.
#[tactic(auto, unfolding(crate::specs::records::CallRecords::callee_in))]
fn callee_at(numbers: &[u64]) -> Option<Word>
    ensures { result ≡ callee_in numbers.now }
{
    if item_or(numbers, 7, 0) != 1 {
        return None;
    }
    Some(word_at(numbers, 8))
}

// Number 12: 1 present; 13 the depth, 14 the next overflow address. A depth over 32 bits: 23.
#[tactic(auto, unfolding(crate::specs::records::CallRecords::info_in))]
fn info_at(numbers: &[u64]) -> Result<Option<ExecutionContextInfo>, Refusal>
    ensures { told result ≡ info_in numbers.now }
{
    if item_or(numbers, 12, 0) != 1 {
        return Ok(None);
    }
    let stack_depth = narrow(item_or(numbers, 13, 0)).ok_or(Refusal::StoredAbsent)?;
    Ok(Some(ExecutionContextInfo {
        stack_depth,
        next_overflow_addr: cell(numbers, 14),
    }))
}

// ResumeBasicBlock: number 3 the batch (5), number 4 the operation (6).
#[tactic(auto, unfolding(crate::specs::records::CallRecords::resume_in))]
fn resume_at(numbers: &[u64], node_id: MastNodeId) -> Result<Continuation, Refusal>
    ensures { told result ≡ resume_in numbers.now node_id }
{
    let batch_index = narrow(item_or(numbers, 3, 0)).ok_or(Refusal::NoSuchBatch)?;
    let op_idx_in_batch = narrow(item_or(numbers, 4, 0)).ok_or(Refusal::NoSuchOperation)?;
    Ok(Continuation::ResumeBasicBlock {
        node_id,
        batch_index,
        op_idx_in_batch,
    })
}

// Respan: number 3 the batch (5).
#[tactic(auto, unfolding(crate::specs::records::CallRecords::respan_in))]
fn respan_at(numbers: &[u64], node_id: MastNodeId) -> Result<Continuation, Refusal>
    ensures { told result ≡ respan_in numbers.now node_id }
{
    let batch_index = narrow(item_or(numbers, 3, 0)).ok_or(Refusal::NoSuchBatch)?;
    Ok(Continuation::Respan {
        node_id,
        batch_index,
    })
}

// The continuation of a kind on a node; a number that names no kind: 23.
#[tactic(auto, unfolding(crate::specs::records::CallRecords::continuation_on))]
fn continuation_on(numbers: &[u64], kind: u64, id: MastNodeId) -> Result<Continuation, Refusal>
    ensures { told result ≡ continuation_on numbers.now kind id }
{
    match kind {
        1 => Ok(Continuation::StartNode(id)),
        2 => Ok(Continuation::FinishJoin(id)),
        3 => Ok(Continuation::FinishSplit(id)),
        4 => Ok(Continuation::FinishLoop(id)),
        5 => Ok(Continuation::FinishCall(id)),
        6 => Ok(Continuation::FinishDyn(id)),
        7 => resume_at(numbers, id),
        8 => respan_at(numbers, id),
        9 => Ok(Continuation::FinishBasicBlock(id)),
        _ => Err(Refusal::StoredAbsent),
    }
}

// Whether a number names none of the kinds 1 to 10.
#[tactic(auto, unfolding(crate::specs::records::CallRecords::names_no_kind))]
fn names_no_kind(kind: u64) -> bool
    ensures { result ≡ names_no_kind kind }
{
    (kind == 0) | (10 < kind)
}

// Number 1 the kind (23), number 2 the node (3), which EnterForest has not.
#[tactic(auto, unfolding(crate::specs::records::CallRecords::continuation_in))]
fn continuation_at(numbers: &[u64]) -> Result<Continuation, Refusal>
    ensures { told result ≡ continuation_in numbers.now }
{
    let kind = item_or(numbers, 1, 0);
    if names_no_kind(kind) {
        return Err(Refusal::StoredAbsent);
    }
    if kind == 10 {
        return Ok(Continuation::EnterForest);
    }
    let id = narrow(item_or(numbers, 2, 0)).ok_or(Refusal::NoSuchNode)?;
    continuation_on(numbers, kind, MastNodeId(id))
}

// Whether flag (5), condition (6), or presence of the word (7) or the info (12) is a number that names nothing.
#[tactic(auto, unfolding(crate::specs::records::CallRecords::names_nothing))]
pub(crate) fn names_nothing(numbers: &[u64]) -> bool
    ensures { result ≡ names_nothing numbers.now }
{
    (1 < item_or(numbers, 5, 0))
        | ((2 < item_or(numbers, 6, 0))
            | ((1 < item_or(numbers, 7, 0)) | (1 < item_or(numbers, 12, 0))))
}

// What a storing is given, or the lowest number that holds of 3, 5, 6 and 23.
#[tactic(auto, unfolding(crate::specs::records::CallRecords::stored_in_record))]
pub fn stored_at(numbers: &[u64]) -> Result<StoredValues, Refusal>
    ensures { told result ≡ stored_in_record numbers.now }
{
    let continuation = continuation_at(numbers)?;
    let ctx_info = info_at(numbers)?;
    if names_nothing(numbers) {
        return Err(Refusal::StoredAbsent);
    }
    Ok(StoredValues {
        continuation,
        is_loop_body: item_or(numbers, 5, 0) == 1,
        captured: Captured {
            finish_loop_condition: condition_at(numbers),
            dyn_callee_hash: callee_at(numbers),
            ctx_info,
        },
    })
}

// Number 2 the clock row, 3 the context, each of 32 bits (23), 4 to 7 fn_hash.
#[tactic(auto, unfolding(crate::specs::records::CallRecords::system_in))]
pub fn system_at(numbers: &[u64]) -> Option<SystemState>
    ensures { told_or stored_absent result ≡ system_in numbers.now }
{
    let clk = narrow(item_or(numbers, 2, 0))?;
    let ctx = narrow(item_or(numbers, 3, 0))?;
    Some(SystemState {
        clk: RowIndex(clk),
        ctx: ContextId(ctx),
        fn_hash: word_at(numbers, 4),
    })
}

// Numbers 8 to 23 the top of the stack, last first, 25 the overflow address; the depth (24) is given.
#[tactic(auto, unfolding(crate::specs::records::CallRecords::stack_in))]
pub fn stack_at(numbers: &[u64], stack_depth: u32) -> StackState
    ensures { result ≡ stack_in numbers.now stack_depth }
{
    let stack_top = [
        cell(numbers, 8),
        cell(numbers, 9),
        cell(numbers, 10),
        cell(numbers, 11),
        cell(numbers, 12),
        cell(numbers, 13),
        cell(numbers, 14),
        cell(numbers, 15),
        cell(numbers, 16),
        cell(numbers, 17),
        cell(numbers, 18),
        cell(numbers, 19),
        cell(numbers, 20),
        cell(numbers, 21),
        cell(numbers, 22),
        cell(numbers, 23),
    ];
    StackState {
        stack_top,
        stack_depth,
        overflow_addr: cell(numbers, 25),
    }
}

// The cases that have one or two cells.
#[tactic(auto, unfolding(crate::specs::records::CallRecords::few_cells))]
fn few_cells(kind: u64, a: u64, b: u64) -> Option<OperationHelperRegisters>
    ensures { told_or stored_absent result ≡ few_cells kind a b }
{
    match kind {
        1 => Some(OperationHelperRegisters::Eq {
            stack_second: a,
            stack_first: b,
        }),
        2 => Some(OperationHelperRegisters::U32Split { lo: a, hi: b }),
        3 => Some(OperationHelperRegisters::Eqz { top: a }),
        4 => Some(OperationHelperRegisters::Expacc { acc_update_val: a }),
        6 => Some(OperationHelperRegisters::U32Add { sum: a, carry: b }),
        7 => Some(OperationHelperRegisters::U32Add3 { sum: a, carry: b }),
        8 => Some(OperationHelperRegisters::U32Sub { second_new: a }),
        9 => Some(OperationHelperRegisters::U32Mul { lo: a, hi: b }),
        10 => Some(OperationHelperRegisters::U32Madd { lo: a, hi: b }),
        12 => Some(OperationHelperRegisters::U32Assert2 {
            first: a,
            second: b,
        }),
        13 => Some(OperationHelperRegisters::HPerm { addr: a }),
        14 => Some(OperationHelperRegisters::MerklePath { addr: a }),
        18 => Some(OperationHelperRegisters::Empty),
        _ => None,
    }
}

// The cases that have more, then the others; a number that names no case is none.
#[tactic(auto, unfolding(crate::specs::records::CallRecords::many_cells))]
fn registers_of(kind: u64, a: Word, b: Word) -> Option<OperationHelperRegisters>
    ensures { told_or stored_absent result ≡ many_cells kind a b }
{
    match kind {
        5 => Some(OperationHelperRegisters::FriExt2Fold4 {
            ev: QuadFelt(a.0, a.1),
            es: QuadFelt(a.2, a.3),
            x: b.0,
            x_inv: b.1,
        }),
        11 => Some(OperationHelperRegisters::U32Div {
            quotient: a.0,
            remainder: a.1,
            remainder_diff: a.2,
        }),
        15 => Some(OperationHelperRegisters::HornerEvalBase {
            alpha: QuadFelt(a.0, a.1),
            tmp0: QuadFelt(a.2, a.3),
            tmp1: QuadFelt(b.0, b.1),
        }),
        16 => Some(OperationHelperRegisters::HornerEvalExt {
            alpha: QuadFelt(a.0, a.1),
            acc_tmp: QuadFelt(a.2, a.3),
        }),
        17 => Some(OperationHelperRegisters::LogDeferred {
            addr: a.0,
            state_prev: Word(a.1, a.2, a.3, b.0),
        }),
        _ => few_cells(kind, a.0, a.1),
    }
}

// Number 0 the case, numbers 26 to 31 its cells in the order of its fields.
#[tactic(auto, unfolding(crate::specs::records::CallRecords::registers_in, crate::specs::records::CallRecords::many_cells, crate::specs::records::CallRecords::few_cells))]
pub fn registers_at(numbers: &[u64]) -> Option<OperationHelperRegisters>
    ensures { told_or stored_absent result ≡ registers_in numbers.now }
{
    let kind = item_or(numbers, 0, 0);
    if kind == 18 {
        return Some(OperationHelperRegisters::Empty);
    }
    let a = word_at(numbers, 26);
    let b = word_at(numbers, 30);
    registers_of(kind, a, b)
}
