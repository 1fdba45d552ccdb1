// Stretches of a replay in which each storing is followed by its cycle, all in one forest. From pair to pair only the numbers of a `Walk`
// move; the tracer is made once, behind the last pair. A pair that is refused, and a record that is of no pair, end the stretch and are left to
// the plain code.
ghost use Rattle.std.specs.Prelude.{◌≡◌, ◌/◌, ◌≤◌, ◌<◌, ◌-◌, length};
ghost use Rattle.rows.specs.records.Lent.{lent_forest, lent_queues};
ghost use Rattle.rows.specs.ways.Inner.{lent_setting};
ghost use Rattle.rows.specs.ways.Pairs.{ClkBehind, SystemBuilt, StackBuilt, StoresOperation, OperationIn, HelpersIn, RowBehind, pair_made, Makes, ArePair, TakesOperation, TakesPair, Walks, BuiltBefore, StandsAt, Follows};

use crate::cycles::cycle::left_after;
use crate::cycles::made::{MadeRow, make};
use crate::cycles::tracer::CoreTraceGenerationTracer;
use crate::records::address_state::{Cursor, LentQueues};
use crate::records::call_record::{
    names_nothing, narrow, registers_at, stack_at, stored_at, system_at,
};
use crate::records::continuation::Used;
use crate::records::decoder_row::DecoderRow;
use crate::records::forest::LentForest;
use crate::records::ids::MastNodeId;
use crate::records::profile::Profile;
use crate::records::row::{first_cells, fragment_wrong, put_cells};
use crate::records::state::{StackCols, SystemCols, overflow_helper};
use crate::replay::calls::LentSetting;
use crate::replay::directory::directory_entry;
use field::cell::{cell, item_or};
use groups::constants::Row;
use groups::context::{BasicBlockContext, OpCells};
use groups::helpers::UserOpHelpers;
use groups::word::word_at;

// What moves from pair to pair: the record that comes next, the row it is for, the address state and queue positions, and what the last
// cycle used up.
#[derive(Clone, Copy)]
pub struct Walk {
    pub next: usize,
    pub row: usize,
    pub here: Cursor,
    pub used: Used,
}

// What is behind a stretch: the record that comes next, and the tracer.
#[derive(Clone, Copy)]
pub struct Followed {
    pub next: usize,
    pub tracer: CoreTraceGenerationTracer,
}

// A pair's records, and the cycle's record before them.
#[derive(Clone, Copy)]
pub struct Pair<'a> {
    pub before: &'a [u64],
    pub storing: &'a [u64],
    pub cycle: &'a [u64],
}

// An operation that is stored: its node, batch and index in the batch.
#[derive(Clone, Copy)]
pub struct StoredOp {
    pub id: MastNodeId,
    pub index: u32,
    pub op: u32,
}

// What a pair leaves of a walk.
#[derive(Clone, Copy)]
pub struct PairEnd {
    pub here: Cursor,
    pub used: Used,
}

// The clock row's cell behind a cycle: one more, where the number is of 32 bits.
// No `checked_add`: a clock may be any number of 64 bits, and the limit is that of 32.
fn clk_behind(clk: u64) -> u64
    ensures { ClkBehind clk result }
{
    if clk < 4294967296 { clk + 1 } else { 0 }
}

// The system cells that a cycle's record builds.
fn system_before(c: &[u64]) -> SystemCols
    ensures { SystemBuilt c.now result }
{
    SystemCols {
        clk: clk_behind(item_or(c, 2, 0)),
        ctx: item_or(c, 3, 0),
        fn_hash: word_at(c, 4),
    }
}

// The stack cells that a cycle's record builds.
fn stack_before(c: &[u64]) -> [u64; 19]
    ensures { StackBuilt c.now result }
{
    let depth = item_or(c, 24, 0);
    [
        cell(c, 23),
        cell(c, 22),
        cell(c, 21),
        cell(c, 20),
        cell(c, 19),
        cell(c, 18),
        cell(c, 17),
        cell(c, 16),
        cell(c, 15),
        cell(c, 14),
        cell(c, 13),
        cell(c, 12),
        cell(c, 11),
        cell(c, 10),
        cell(c, 9),
        cell(c, 8),
        depth,
        cell(c, 25),
        overflow_helper(depth),
    ]
}

// Writes the row of a pair, behind the cycle of a record.
fn put_behind(before: &[u64], row: usize, decoder: DecoderRow, fragment: &mut [u64])
    ensures { RowBehind before.now row decoder fragment.old fragment.new }
{
    let first = first_cells(system_before(before), decoder);
    let last = stack_before(before);
    put_cells(fragment, row, first, last);
}

// The operation that a storing's record stores.
fn operation_of(s: &[u64]) -> Option<StoredOp>
    ensures { StoresOperation result s.now }
{
    if (item_or(s, 1, 0) != 7) | ((item_or(s, 12, 0) == 1) & (4294967296 <= item_or(s, 13, 0))) {
        return None;
    }
    let id = narrow(item_or(s, 2, 0))?;
    let index = narrow(item_or(s, 3, 0))?;
    let op = narrow(item_or(s, 4, 0))?;
    if names_nothing(s) {
        return None;
    }
    Some(StoredOp {
        id: MastNodeId(id),
        index,
        op,
    })
}

// The opcode of an operation and what its row shows of its block, where none of 3, 4, 5, 6, 8 and 11 refuses it.
fn operation_at(forest: &LentForest, push: u8, stored: StoredOp) -> Option<(u8, OpCells)>
    ensures { OperationIn result (lent_forest forest.now) push stored.id stored.index stored.op }
{
    if forest.kind_at(stored.id) != 2 {
        return None;
    }
    let block = forest.slot_block(stored.id);
    let cells = BasicBlockContext::cells_at_op(
        push,
        &forest.batches,
        block,
        stored.index,
        stored.op,
    ).ok()?;
    let record = block.first_batch as usize + stored.index as usize;
    let i = item_or(forest.batches.records, 12 * record + 11, 0) as usize + stored.op as usize;
    if forest.ops.len() <= i {
        return None;
    }
    Some((forest.ops[i], cells))
}

// The helpers of a cycle's record.
fn helpers_at(c: &[u64]) -> Option<UserOpHelpers>
    ensures { HelpersIn result c.now }
{
    if item_or(c, 0, 0) == 18 {
        return Some(UserOpHelpers {
            h2: 0,
            h3: 0,
            h4: 0,
            h5: 0,
            h6: 0,
            h7: 0,
        });
    }
    registers_at(c)?.to_user_op_helpers().ok()
}

// The pair of an operation that is stored.
fn operation_pair(
    write: bool,
    forest: &LentForest,
    push: u8,
    stored: StoredOp,
    pair: &Pair,
    row: usize,
    here: Cursor,
    fragment: &mut [u64],
) -> Option<PairEnd>
    ensures { TakesOperation result (lent_forest forest.now) push stored.id stored.index stored.op
        pair.now.before.now pair.now.cycle.now row here write fragment.old fragment.new }
{
    let (opcode, cells) = operation_at(forest, push, stored)?;
    let helpers = helpers_at(pair.cycle)?;
    if write {
        let decoder = DecoderRow::new_operation(
            opcode,
            here.state.current_addr,
            here.state.parent_addr,
            cells.index,
            cells.context.current_op_group,
            cells.context.group_count_in_block,
            helpers,
        );
        put_behind(pair.before, row, decoder, fragment);
    }
    Some(PairEnd {
        here,
        used: Used::Nothing,
    })
}

// What a pair makes, by the plain code.
#[tactic(auto, unfolding(crate::specs::ways::Pairs::pair_made))]
fn made_of(
    forest: &LentForest,
    queues: &LentQueues,
    profile: Profile,
    pair: &Pair,
    here: Cursor,
) -> Option<MadeRow>
    ensures { Makes result (pair_made (lent_forest forest.now) (lent_queues queues.now) profile
        pair.now.storing.now pair.now.cycle.now here) }
{
    let values = stored_at(pair.storing).ok()?;
    let registers = registers_at(pair.cycle)?;
    make(
        forest,
        queues,
        profile,
        registers,
        values.continuation,
        values.is_loop_body,
        values.captured.read(),
        here,
    )
    .ok()
}

// A pair of any kind.
fn any_pair(
    write: bool,
    forest: &LentForest,
    queues: &LentQueues,
    profile: Profile,
    pair: &Pair,
    row: usize,
    here: Cursor,
    fragment: &mut [u64],
) -> Option<PairEnd>
    ensures { TakesPair result (lent_forest forest.now) (lent_queues queues.now) profile
        pair.now.before.now pair.now.storing.now pair.now.cycle.now row here write fragment.old fragment.new }
{
    let made = made_of(forest, queues, profile, pair, here)?;
    if write {
        put_behind(pair.before, row, made.row, fragment);
    }
    Some(PairEnd {
        here: Cursor {
            state: made.state,
            at: made.at,
        },
        used: made.used,
    })
}

// A pair, an operation's by a way of its own.
fn pair_end(
    write: bool,
    forest: &LentForest,
    queues: &LentQueues,
    profile: Profile,
    pair: &Pair,
    row: usize,
    here: Cursor,
    fragment: &mut [u64],
) -> Option<PairEnd>
    ensures { TakesPair result (lent_forest forest.now) (lent_queues queues.now) profile
        pair.now.before.now pair.now.storing.now pair.now.cycle.now row here write fragment.old fragment.new }
{
    match operation_of(pair.storing) {
        Some(stored) => operation_pair(
            write,
            forest,
            profile.push,
            stored,
            pair,
            row,
            here,
            fragment,
        ),
        None => any_pair(write, forest, queues, profile, pair, row, here, fragment),
    }
}

// Whether two records are a storing and a cycle in a forest that no check before the continuation's refuses.
fn is_pair(s: &[u64], c: &[u64], forest: u64) -> bool
    ensures { ArePair result s.now c.now forest }
{
    let depth = item_or(c, 24, 0);
    if (depth < 16) | (4294967296 <= depth) {
        return false;
    }
    if (4294967296 <= item_or(c, 2, 0)) | (4294967296 <= item_or(c, 3, 0)) {
        return false;
    }
    (item_or(s, 0, 0) == 0) & ((item_or(c, 0, 0) != 0) & (item_or(c, 1, 0) == forest))
}

// The pairs from a walk's next record on, as long as they are of one forest, have a row, and are taken.
fn walk_pairs(
    write: bool,
    forest: &LentForest,
    queues: &LentQueues,
    profile: Profile,
    number: u64,
    records: &[u64],
    from: Walk,
    fragment: &mut [u64],
) -> Walk
    requires { 0 < from.next }
    ensures { Walks (lent_forest forest.now) (lent_queues queues.now) profile number
        records.now write from fragment.old result fragment.new }
{
    let rows = fragment.len() / Row::WIDTH;
    let mut w = from;
    // By `while`: what a pair asks decides how far the next one is.
    while w.next < records.len() / 32 {
        if rows <= w.row {
            return w;
        }
        let i = 32 * w.next;
        let j = i + 32;
        let e = j + 32;
        if records.len() < e {
            return w;
        }
        if !is_pair(&records[i..j], &records[j..e], number) {
            return w;
        }
        let b = i - 32;
        let pair = Pair {
            before: &records[b..i],
            storing: &records[i..j],
            cycle: &records[j..e],
        };
        let Some(end) = pair_end(
            write, forest, queues, profile, &pair, w.row, w.here, fragment,
        ) else {
            return w;
        };
        w = Walk {
            next: w.next + 2,
            row: w.row + 1,
            here: end.here,
            used: end.used,
        };
    }
    w
}

// The tracer where a walk stands, behind the two records before its next.
fn tracer_at(records: &[u64], w: Walk, t: CoreTraceGenerationTracer) -> CoreTraceGenerationTracer
    requires { (2 ≤ w.next) × (w.next ≤ length records.now / 32) }
    ensures { StandsAt records.now w result }
{
    let b = 32 * w.next - 32;
    let a = b - 32;
    let c = b + 32;
    let Ok(values) = stored_at(&records[a..b]) else {
        return t;
    };
    let Some(system) = system_at(&records[b..c]) else {
        return t;
    };
    let Some(depth) = narrow(item_or(&records[b..c], 24, 0)) else {
        return t;
    };
    CoreTraceGenerationTracer {
        refusal: 0,
        row_write_index: w.row,
        continuation: Some(values.continuation),
        is_loop_body: values.is_loop_body,
        captured: left_after(w.used, values.captured.read()),
        decoder_state: w.here.state,
        at: w.here.at,
        system_cols: SystemCols::build(system),
        stack_cols: StackCols::build(stack_at(&records[b..c], depth)),
    }
}

// The stretch of pairs from record k on, in the forest of the first. The record before wrote a row.
pub(crate) fn follow(
    write: bool,
    setting: &LentSetting,
    records: &[u64],
    k: usize,
    tracer: CoreTraceGenerationTracer,
    fragment: &mut [u64],
) -> Followed
    requires k_nonzero { (0 < k) × (k ≤ length records.now / 32) }
    requires built_before { BuiltBefore records.now k tracer }
    ensures { Follows (lent_setting setting.now (length fragment.old)) records.now k tracer write fragment.old fragment.new result }
{
    let scan = setting.scan;
    let wrong = fragment_wrong(fragment.len(), tracer.row_write_index);
    if scan.big | (scan.profile_wrong | (scan.too_large | wrong)) {
        return Followed { next: k, tracer };
    }
    let number = item_or(records, 32 * k + 33, 0);
    let forest = setting
        .forests
        .part(directory_entry(setting.directory, number));
    let from = Walk {
        next: k,
        row: tracer.row_write_index,
        here: Cursor {
            state: tracer.decoder_state,
            at: tracer.at,
        },
        used: Used::Nothing,
    };
    let w = walk_pairs(
        write,
        &forest,
        &setting.queues,
        setting.profile,
        number,
        records,
        from,
        fragment,
    );
    if w.next == k {
        return Followed { next: k, tracer };
    }
    Followed {
        next: w.next,
        tracer: tracer_at(records, w, tracer),
    }
}
