// Reading a trace: its answer, and the depth of each row.
ghost use Rattle.std.specs.Prelude.{◌≡◌, ◌/◌, ◌≤◌, length};
ghost use Rattle.groups.specs.Constants.{row_width};
ghost use Rattle.theory_readings.specs.Readings.{all_rows};
ghost use Rattle.reader.specs.Rows.{word_in};
ghost use Rattle.reader.specs.Reads.{trace_read, told_trace, TellsTrace, ReadsTrace};
ghost use Rattle.reader.specs.KeptKinds.{KeptKinds};
ghost use Rattle.reader.specs.ways.Parts.{told_wrong};
ghost use Rattle.reader.specs.ways.WholeWord.{HaltsRead, BehindRead, cells_answer};

use crate::depths::fill;
use crate::grammar::block;
use crate::kept::{
    FEW_ROWS, LONG_LIST, LentTrace, SHORT_LIST, UNKNOWN, forget, note_kind, table_for,
};
use crate::refused::TraceRefused;
use crate::scan::refusal;
use crate::token::RowKind;
use groups::constants::Row;
use groups::refusal::Refusal;
use rows::records::profile::Profile;

// The first row from `from` on that is no HALT, or the end.
#[tactic(auto, unfolding(crate::specs::ways::WholeWord::HaltsRead))]
fn halts(lent: &LentTrace<'_>, from: usize, kinds: &mut [u8]) -> usize
    requires { (from ≤ length lent.now.cells.now / row_width) × KeptKinds lent.now.profile lent.now.cells.now lent.now.table.now kinds.old }
    ensures halts_read { HaltsRead (word_in lent.now.profile lent.now.cells.now) from result }
    ensures kept_kinds { KeptKinds lent.now.profile lent.now.cells.now lent.now.table.now kinds.new }
{
    // By a copy, as in `grammar::ops`.
    let trace = *lent;
    for at in from..lent.cells.len() / Row::WIDTH {
        let kind = note_kind(&trace, at, kinds);
        let RowKind::Halt = kind else {
            return at;
        };
    }
    lent.cells.len() / Row::WIDTH
}

// The answer behind a Block that ends before row `next`.
fn behind_block(
    lent: &LentTrace<'_>,
    next: usize,
    wrong: Option<usize>,
    kinds: &mut [u8],
) -> Result<usize, TraceRefused>
    requires { (next ≤ length lent.now.cells.now / row_width) × KeptKinds lent.now.profile lent.now.cells.now lent.now.table.now kinds.old }
    ensures behind_read { BehindRead (all_rows lent.now.cells.now) (word_in lent.now.profile lent.now.cells.now) next (told_wrong wrong) (told_trace result) }
    ensures kept_kinds { KeptKinds lent.now.profile lent.now.cells.now lent.now.table.now kinds.new }
{
    let end = halts(lent, next, kinds);
    let rows = lent.cells.len() / Row::WIDTH;
    if (next == rows) | (end < rows) {
        return Err(TraceRefused::no_word(end));
    }
    match wrong {
        Some(row) => Err(TraceRefused {
            refusal: Refusal::WrongFlagOrCount,
            row,
        }),
        None => Ok(next),
    }
}

// The answer of a buffer that 2 and 11 pass.
fn read_cells(lent: &LentTrace<'_>, kinds: &mut [u8]) -> Result<usize, TraceRefused>
    requires { KeptKinds lent.now.profile lent.now.cells.now lent.now.table.now kinds.old }
    ensures value { told_trace result ≡ trace_read (cells_answer lent.now.profile lent.now.cells.now) }
    ensures kept_kinds { KeptKinds lent.now.profile lent.now.cells.now lent.now.table.now kinds.new }
{
    let (next, wrong) = block(lent, 0, 64, 0, kinds)?;
    behind_block(lent, next, wrong, kinds)
}

// The answer of a reader that is lent so many depth numbers, without writing them: 2, 11, then 12, 15 or 13, else accepted.
fn tell_trace(lent: &LentTrace<'_>, depths: usize, kinds: &mut [u8]) -> Result<usize, TraceRefused>
    requires { KeptKinds lent.now.profile lent.now.cells.now lent.now.table.now kinds.old }
    ensures tells_trace { TellsTrace lent.now.profile lent.now.cells.now depths (told_trace result) }
    ensures kept_kinds { KeptKinds lent.now.profile lent.now.cells.now lent.now.table.now kinds.new }
{
    refusal(lent.profile, lent.cells, depths)?;
    read_cells(lent, kinds)
}

// The same, by a table of its own: no row is looked at twice, so no kind is kept.
pub fn validate(profile: Profile, cells: &[u64], depths: usize) -> Result<usize, TraceRefused>
    ensures { TellsTrace profile cells.now depths (told_trace result) }
{
    let table = table_for(profile, cells.len() / Row::WIDTH);
    let mut kinds = [UNKNOWN; 0];
    let lent = LentTrace {
        profile,
        cells,
        table: &table,
    };
    tell_trace(&lent, depths, &mut kinds)
}

// The same with a table and a list that are lent for it, whatever they hold: it leaves the profile's table, and kinds of rows.
pub fn validate_keeping(
    profile: Profile,
    cells: &[u64],
    depths: usize,
    table: &mut [u8; 256],
    kinds: &mut [u8],
) -> Result<usize, TraceRefused>
    ensures tells_trace { TellsTrace profile cells.now depths (told_trace result) }
    ensures kept_kinds { KeptKinds profile cells.now table.new kinds.new }
{
    *table = table_for(profile, cells.len() / Row::WIDTH);
    forget(kinds);
    let lent = LentTrace {
        profile,
        cells,
        table,
    };
    tell_trace(&lent, depths, kinds)
}

// Reads a trace with a list that has nothing wrong of its rows.
fn read_with(
    lent: &LentTrace<'_>,
    depths: &mut [u32],
    kinds: &mut [u8],
) -> Result<usize, TraceRefused>
    requires { KeptKinds lent.now.profile lent.now.cells.now lent.now.table.now kinds.old }
    ensures { ReadsTrace lent.now.profile lent.now.cells.now depths.old (told_trace result) depths.new }
{
    let rows = tell_trace(lent, depths.len(), kinds)?;
    fill(lent, depths, kinds);
    Ok(rows)
}

// Reads a trace, with a list of kinds for so many of its rows.
fn read_by_list<const ROWS: usize>(
    profile: Profile,
    cells: &[u64],
    depths: &mut [u32],
) -> Result<usize, TraceRefused>
    requires { ROWS ≤ 65536 }
    ensures { ReadsTrace profile cells.now depths.old (told_trace result) depths.new }
{
    let table = table_for(profile, cells.len() / Row::WIDTH);
    let mut kinds = [UNKNOWN; ROWS];
    let lent = LentTrace {
        profile,
        cells,
        table: &table,
    };
    read_with(&lent, depths, &mut kinds)
}

// Reads a trace: the number of program rows, and one depth a row; or the refusal and its row, which changes no depth.
pub fn read_trace(
    profile: Profile,
    cells: &[u64],
    depths: &mut [u32],
) -> Result<usize, TraceRefused>
    ensures { ReadsTrace profile cells.now depths.old (told_trace result) depths.new }
{
    if cells.len() / Row::WIDTH <= FEW_ROWS {
        return read_by_list::<FEW_ROWS>(profile, cells, depths);
    }
    if cells.len() / Row::WIDTH <= SHORT_LIST {
        return read_by_list::<SHORT_LIST>(profile, cells, depths);
    }
    read_by_list::<LONG_LIST>(profile, cells, depths)
}
