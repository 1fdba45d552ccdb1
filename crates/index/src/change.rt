// What a row does to the open blocks.
ghost use Rattle.std.specs.Prelude.{◌≡◌};
ghost use Rattle.theory_indexes.specs.ways.IndexScan.{change_of, one_if_begins, starts};
ghost use Rattle.reader.specs.Rows.{token_at, word_in};
ghost use Rattle.reader.specs.ways.FromRow.{rows_from};
ghost use Rattle.reader.specs.KeptKinds.{KeptKinds};
ghost use Rattle.index.specs.ways.Steps.{told_change};

use groups::constants::Row;
use reader::kept::{LentTrace, kept_kind};
use reader::token::RowKind;

// A block begins, ends, or neither.
#[derive(Clone, Copy)]
pub(crate) enum Change {
    Begins,
    Ends,
    Stays,
}

// What a row does; past the end, nothing.
pub(crate) fn change_at(lent: &LentTrace<'_>, row: usize, kinds: &[u8]) -> Change
    requires { KeptKinds lent.now.profile lent.now.cells.now lent.now.table.now kinds.now }
    ensures { told_change result ≡ change_of (token_at lent.now.profile lent.now.cells.now row) }
{
    let kind = kept_kind(lent, row, kinds);
    match kind {
        RowKind::Span | RowKind::Join | RowKind::One | RowKind::Loop => Change::Begins,
        RowKind::End => Change::Ends,
        RowKind::Op | RowKind::Respan | RowKind::Repeat | RowKind::Halt | RowKind::Nothing => {
            Change::Stays
        }
    }
}

// 1 where a block begins.
#[tactic(auto, unfolding(theory_indexes::specs::ways::IndexScan::one_if_begins))]
fn begun(change: Change) -> usize
    ensures { result ≡ one_if_begins (told_change change) }
{
    usize::from(matches!(change, Change::Begins))
}

// The number of start rows.
pub(crate) fn count_starts(lent: &LentTrace<'_>, kinds: &[u8]) -> usize
    requires { KeptKinds lent.now.profile lent.now.cells.now lent.now.table.now kinds.now }
    ensures { result ≡ starts (rows_from (word_in lent.now.profile lent.now.cells.now) 0) }
{
    let mut count = 0;
    for at in 0..lent.cells.len() / Row::WIDTH {
        let change = change_at(lent, at, kinds);
        count += begun(change);
    }
    count
}
