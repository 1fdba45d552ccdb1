// Building the index of a finished trace.
ghost use Rattle.std.specs.Prelude.{◌≡◌, ◌≤◌};
ghost use Rattle.index.specs.Building.{told_built, BuildsIndex};

use crate::change::count_starts;
use crate::fill::fill;
use groups::constants::Row;
use groups::refusal::Refusal;
use reader::kept::{LONG_LIST, LentTrace, SHORT_LIST};
use reader::refused::TraceRefused;
use reader::trace::validate_keeping;
use rows::records::profile::Profile;

// Builds the index, with a list that is lent for kinds of rows, whatever it holds.
fn build_with(
    profile: Profile,
    cells: &[u64],
    index: &mut [u32],
    kinds: &mut [u8],
) -> Result<usize, TraceRefused>
    ensures { BuildsIndex profile cells.now index.old (told_built result) index.new }
{
    let mut table = [0u8; 256];
    validate_keeping(profile, cells, cells.len() / Row::WIDTH, &mut table, kinds)?;
    let lent = LentTrace {
        profile,
        cells,
        table: &table,
    };
    let blocks = count_starts(&lent, kinds);
    if index.len() / 3 < blocks {
        return Err(TraceRefused::from(Refusal::ShortIndex));
    }
    fill(&lent, index, kinds);
    Ok(blocks)
}

// Builds it with a list of kinds for so many rows.
fn build_by_list<const ROWS: usize>(
    profile: Profile,
    cells: &[u64],
    index: &mut [u32],
) -> Result<usize, TraceRefused>
    requires { ROWS ≤ 65536 }
    ensures { BuildsIndex profile cells.now index.old (told_built result) index.new }
{
    let mut kinds = [0u8; ROWS];
    build_with(profile, cells, index, &mut kinds)
}

// Builds the index: three numbers for each block, its start row, its END row and the enclosing block's start row. The reader's refusals come
// first, then 27 for an index too short. A refusal changes nothing.
pub fn build_index(
    profile: Profile,
    cells: &[u64],
    index: &mut [u32],
) -> Result<usize, TraceRefused>
    ensures { BuildsIndex profile cells.now index.old (told_built result) index.new }
{
    if cells.len() / Row::WIDTH <= SHORT_LIST {
        return build_by_list::<SHORT_LIST>(profile, cells, index);
    }
    build_by_list::<LONG_LIST>(profile, cells, index)
}
