// Block and Passes, from a row on. Each way through reads every row once.
ghost use Rattle.std.specs.Prelude.{◌≡◌, ◌/◌, ◌<◌, ◌≤◌, eqb, length};
ghost use Rattle.field.specs.Cells.{cell_at};
ghost use Rattle.groups.specs.Constants.{row_width};
ghost use Rattle.theory_readings.specs.Readings.{row_at, all_rows};
ghost use Rattle.reader.specs.Rows.{word_in};
ghost use Rattle.reader.specs.KeptKinds.{KeptKinds};
ghost use Rattle.reader.specs.ways.Parts.{told_wrong, told_part, told_refused, wrong_unless, too_deep, closed_at, OpsRead, BlockRead, PassesRead};

use crate::kept::{LentTrace, note_kind};
use crate::refused::TraceRefused;
use crate::token::RowKind;
use field::cell::cell;
use groups::constants::{Column, Row};
use groups::refusal::Refusal;

// A part of the word: the row behind it, and its lowest row with a cell that is not as asked, if there is one.
pub(crate) type Part = Result<(usize, Option<usize>), TraceRefused>;

// The row, where its cell k is not as asked.
fn ask(cells: &[u64], row: usize, k: usize, value: u64) -> Option<usize>
    requires { (row < length cells.now / row_width) × (k < row_width) }
    ensures { told_wrong result ≡ wrong_unless (eqb (cell_at (row_at (all_rows cells.now) row) k) value) row }
{
    if cell(cells, Row::WIDTH * row + k) == value {
        None
    } else {
        Some(row)
    }
}

// The refusal of a row where no more block may start: 15 if it starts one, else 12.
fn too_deep(kind: RowKind, row: usize) -> TraceRefused
    ensures { told_refused result ≡ too_deep kind row }
{
    match kind {
        RowKind::Span | RowKind::Join | RowKind::One | RowKind::Loop => TraceRefused {
            refusal: Refusal::Block65Deep,
            row,
        },
        RowKind::Op
        | RowKind::Respan
        | RowKind::Repeat
        | RowKind::End
        | RowKind::Halt
        | RowKind::Nothing => TraceRefused {
            refusal: Refusal::NoWordOfGrammar,
            row,
        },
    }
}

// The END of a block; `flag` is what its h4 has to be, `wrong` the lowest wrong row of the block's parts.
// Inlined, so that `block` writes each number of its answer whole: who reads one that was written in pieces waits for each of them.
#[inline(always)]
fn close(
    lent: &LentTrace<'_>,
    row: usize,
    flag: u64,
    wrong: Option<usize>,
    kinds: &mut [u8],
) -> Part
    requires { KeptKinds lent.now.profile lent.now.cells.now lent.now.table.now kinds.old }
    ensures result_value { told_part result ≡ closed_at lent.now.profile lent.now.cells.now row flag (told_wrong wrong) }
    ensures kept_kinds { KeptKinds lent.now.profile lent.now.cells.now lent.now.table.now kinds.new }
{
    let kind = note_kind(lent, row, kinds);
    if let RowKind::End = kind {
        let own = ask(lent.cells, row, Column::H4, flag);
        Ok((row + 1, wrong.or(own)))
    } else {
        Err(TraceRefused::no_word(row))
    }
}

// The rows behind a SPAN: ops and RESPANs, then END.
#[tactic(auto, unfolding(crate::specs::ways::Parts::Ahead))]
fn ops(lent: &LentTrace<'_>, row: usize, flag: u64, kinds: &mut [u8]) -> Part
    requires { (row ≤ length lent.now.cells.now / row_width) × KeptKinds lent.now.profile lent.now.cells.now lent.now.table.now kinds.old }
    ensures ops_read { OpsRead (all_rows lent.now.cells.now) (word_in lent.now.profile lent.now.cells.now) row flag (told_part result) }
    ensures kept_kinds { KeptKinds lent.now.profile lent.now.cells.now lent.now.table.now kinds.new }
{
    // By a copy, what is lent is not read again behind each store to `kinds`.
    let trace = *lent;
    let mut at = row;
    // By `loop`: the rows say when it ends.
    loop {
        let kind = note_kind(&trace, at, kinds);
        match kind {
            RowKind::Op | RowKind::Respan => {
                at += 1;
            }
            RowKind::End => {
                let own = ask(lent.cells, at, Column::H4, flag);
                return Ok((at + 1, own));
            }
            RowKind::Span
            | RowKind::Join
            | RowKind::One
            | RowKind::Loop
            | RowKind::Repeat
            | RowKind::Halt
            | RowKind::Nothing => {
                return Err(TraceRefused::no_word(at));
            }
        }
    }
}

// A Block, where `left` blocks may open one in another; `flag` is what h4 of its END has to be.
#[cycle(block_passes)]
pub(crate) fn block(
    lent: &LentTrace<'_>,
    row: usize,
    left: u32,
    flag: u64,
    kinds: &mut [u8],
) -> Part
    requires { (row ≤ length lent.now.cells.now / row_width) × KeptKinds lent.now.profile lent.now.cells.now lent.now.table.now kinds.old }
    ensures block_read { BlockRead (all_rows lent.now.cells.now) (word_in lent.now.profile lent.now.cells.now) row left flag (told_part result) }
    ensures kept_kinds { KeptKinds lent.now.profile lent.now.cells.now lent.now.table.now kinds.new }
{
    let kind = note_kind(lent, row, kinds);
    if left == 0 {
        return Err(too_deep(kind, row));
    }
    match kind {
        RowKind::Span => ops(lent, row + 1, flag, kinds),
        RowKind::Join => {
            let (a, v) = block(lent, row + 1, left - 1, 0, kinds)?;
            let (b, w) = block(lent, a, left - 1, 0, kinds)?;
            close(lent, b, flag, v.or(w), kinds)
        }
        RowKind::One => {
            let (a, v) = block(lent, row + 1, left - 1, 0, kinds)?;
            close(lent, a, flag, v, kinds)
        }
        RowKind::Loop => passes(lent, row, left - 1, flag, kinds),
        RowKind::Op
        | RowKind::Respan
        | RowKind::Repeat
        | RowKind::End
        | RowKind::Halt
        | RowKind::Nothing => Err(TraceRefused::no_word(row)),
    }
}

// The Passes behind a LOOP row: a body and END, or a body, REPEAT, and Passes again; the row's count has to be their number (`count` has the
// pass that is read), and h4 of END `flag`.
#[cycle(block_passes)]
fn passes(lent: &LentTrace<'_>, row: usize, left: u32, flag: u64, kinds: &mut [u8]) -> Part
    requires { (row < length lent.now.cells.now / row_width) × KeptKinds lent.now.profile lent.now.cells.now lent.now.table.now kinds.old }
    ensures passes_read { PassesRead (all_rows lent.now.cells.now) (word_in lent.now.profile lent.now.cells.now) row left flag (told_part result) }
    ensures kept_kinds { KeptKinds lent.now.profile lent.now.cells.now lent.now.table.now kinds.new }
{
    let mut at = row + 1;
    let mut count: u64 = 1;
    let mut so_far: Option<usize> = None;
    // By `loop`: the rows say when it ends.
    loop {
        let (next, wrong) = block(lent, at, left, 1, kinds)?;
        let kind = note_kind(lent, next, kinds);
        so_far = so_far.or(wrong);
        match kind {
            RowKind::Repeat => {
                at = next + 1;
                count += 1;
            }
            RowKind::End => {
                let counted = ask(lent.cells, row, Column::GROUP_COUNT, count);
                let own = ask(lent.cells, next, Column::H4, flag);
                return Ok((next + 1, counted.or(so_far.or(own))));
            }
            RowKind::Span
            | RowKind::Join
            | RowKind::One
            | RowKind::Loop
            | RowKind::Op
            | RowKind::Respan
            | RowKind::Halt
            | RowKind::Nothing => {
                return Err(TraceRefused::no_word(next));
            }
        }
    }
}
