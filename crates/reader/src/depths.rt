// The depth of each row of a trace, by one scan that counts the open blocks.
ghost use Rattle.std.specs.Prelude.{◌≡◌, ◌++◌, ◌/◌, ◌≤◌, ◌<◌, length, drop};
ghost use Rattle.groups.specs.Constants.{row_width, most_rows};
ghost use Rattle.theory_readings.specs.ways.Parser.{levels};
ghost use Rattle.reader.specs.Rows.{word_in};
ghost use Rattle.reader.specs.KeptKinds.{KeptKinds};
ghost use Rattle.reader.specs.ways.Levels.{level_at, level_behind};

use crate::kept::{LentTrace, kept_kind};
use crate::token::RowKind;
use groups::constants::Row;

// The depth of a row, where so many blocks are open before it.
fn depth_at(kind: RowKind, opened: u32) -> u32
    requires { opened < 4294967295 }
    ensures { result ≡ level_at kind opened }
{
    match kind {
        RowKind::Span | RowKind::Join | RowKind::One | RowKind::Loop => opened + 1,
        RowKind::Op
        | RowKind::Respan
        | RowKind::Repeat
        | RowKind::End
        | RowKind::Halt
        | RowKind::Nothing => opened,
    }
}

// The open blocks behind a row of this depth.
#[tactic(auto, unfolding(crate::specs::ways::Levels::level_behind))]
fn open_behind(kind: RowKind, depth: u32) -> u32
    ensures { result ≡ level_behind kind depth }
{
    let RowKind::End = kind else {
        return depth;
    };
    depth.saturating_sub(1)
}

// Fills one depth a row; the numbers past the rows stay.
pub(crate) fn fill(lent: &LentTrace<'_>, depths: &mut [u32], kinds: &[u8])
    requires { (length lent.now.cells.now / row_width ≤ most_rows) × (length lent.now.cells.now / row_width ≤ length depths.old)
        × KeptKinds lent.now.profile lent.now.cells.now lent.now.table.now kinds.now }
    ensures { depths.new ≡ levels 0 (word_in lent.now.profile lent.now.cells.now)
        ++ drop (length lent.now.cells.now / row_width) depths.old }
{
    // By a copy, as in `grammar::ops`: there is a store to `depths` for each row.
    let trace = *lent;
    let mut opened: u32 = 0;
    for at in 0..lent.cells.len() / Row::WIDTH {
        let kind = kept_kind(&trace, at, kinds);
        let depth = depth_at(kind, opened);
        depths[at] = depth;
        opened = open_behind(kind, depth);
    }
}
