// Finishing pass 1: the system and stack cells of each fragment's first row.
ghost use Rattle.std.specs.Prelude.{◌≡◌, false, ◌+◌, ◌-◌, ◌*◌, ◌≤◌, ◌<◌, length, take, drop};
ghost use Rattle.field.specs.Cells.{reduced};
ghost use Rattle.groups.specs.Answer.{refusal};
ghost use Rattle.groups.specs.Constants.{row_width};
ghost use Rattle.groups.specs.Refusals.{told};
ghost use Rattle.rows.specs.records.Cells.{put_row};
ghost use Rattle.rows.specs.records.Buffers.{on_rows};
ghost use Rattle.rows.specs.passes.Passes.{with_sides, first_row, later_rows, fixed_up, built_of, sum_of, not_full, no_fragment, fragments_wrong, refusal1, unless_refused};

use crate::passes::fragments::Fragments;
use crate::records::row::copy_in;
use field::felt::Felt;
use groups::constants::{Column, Row};
use groups::refusal::Refusal;

// What pass 1 refuses.
#[tactic(auto, unfolding(crate::specs::passes::Passes::refusal1, groups::specs::Answer::first_of))]
fn check_fixup(buffer: &[u64], fragments: &Fragments) -> Result<(), Refusal>
    ensures { refusal (told result) ≡ refusal1 buffer.now fragments.now.size fragments.now.counts.now fragments.now.built.now }
{
    fragments.rows_in(buffer.len())?;
    if fragments.none() {
        return Err(Refusal::NoFragments);
    }
    if fragments.not_full() {
        return Err(Refusal::FragmentNotFull);
    }
    Ok(())
}

// Row 0 gets the reversed first stack top, depth 16, 0, 0.
fn write_first_stack(buffer: &mut [u64], first_stack_top: [u64; 16])
    requires { row_width ≤ length buffer.old }
    ensures { buffer.new ≡ put_row buffer.old 0 (first_row first_stack_top (take row_width buffer.old)) }
{
    let mut stack = [Felt::ZERO; 19];
    stack[..16].copy_from_slice(&first_stack_top);
    stack[..16].reverse();
    stack[16] = 16;
    copy_in(buffer, Column::STACK, &stack);
}

// The row gets a fragment's 25 built cells: 6 system cells and 19 stack cells.
fn write_sides(buffer: &mut [u64], row: usize, cells: &[u64])
    requires { (row_width * row + row_width ≤ length buffer.old) × (length cells.now ≡ 25) }
    ensures { buffer.new ≡ put_row buffer.old row
        (with_sides (take 6 (reduced cells.now)) (drop 6 (reduced cells.now))
        (take row_width (drop (row_width * row) buffer.old))) }
{
    copy_in(buffer, Row::WIDTH * row, &cells[..6]);
    copy_in(buffer, Row::WIDTH * row + Column::STACK, &cells[6..]);
}

// The first row of each later fragment gets the previous fragment's built cells.
fn write_later_rows(buffer: &mut [u64], fragments: &Fragments)
    requires { (0 < fragments.now.size) × ((length fragments.now.counts.now - 1) * fragments.now.size < sum_of fragments.now.counts.now)
        × (row_width * sum_of fragments.now.counts.now ≤ length buffer.old) × (25 * length fragments.now.counts.now ≤ length fragments.now.built.now) }
    ensures { buffer.new ≡ on_rows (sum_of fragments.now.counts.now)
        (later_rows fragments.now.size fragments.now.size (built_of (length fragments.now.counts.now - 1) fragments.now.built.now)) buffer.old }
{
    for k in 1..fragments.counts.len() {
        let at = 25 * (k - 1);
        write_sides(buffer, k * fragments.size, &fragments.built[at..at + 25]);
    }
}

// The work of pass 1, of what 11, 26 and 25 let pass.
pub(crate) fn fixup_rows(buffer: &mut [u64], fragments: &Fragments, first_stack_top: [u64; 16])
    requires { (fragments_wrong (length buffer.old) fragments.now.size fragments.now.counts.now fragments.now.built.now ≡ false)
        × (no_fragment fragments.now.counts.now ≡ false) × (not_full fragments.now.size fragments.now.counts.now ≡ false) }
    ensures { buffer.new ≡ on_rows (sum_of fragments.now.counts.now)
        (fixed_up fragments.now.size first_stack_top (built_of (length fragments.now.counts.now - 1) fragments.now.built.now)) buffer.old }
{
    write_first_stack(buffer, first_stack_top);
    write_later_rows(buffer, fragments);
}

// Pass 1. Row 0 gets its stack cells from the first stack top, and each later fragment's first row its system and stack cells from the
// previous fragment's last built cells (25 a fragment). A refusal changes nothing.
pub fn fixup_stack_and_system_rows(
    buffer: &mut [u64],
    fragments: &Fragments,
    first_stack_top: [u64; 16],
) -> Result<(), Refusal>
    ensures number { refusal (told result) ≡ refusal1 buffer.old fragments.now.size fragments.now.counts.now fragments.now.built.now }
    ensures cells { buffer.new ≡ unless_refused
        (refusal1 buffer.old fragments.now.size fragments.now.counts.now fragments.now.built.now)
        buffer.old
        (on_rows (sum_of fragments.now.counts.now)
        (fixed_up fragments.now.size first_stack_top (built_of (length fragments.now.counts.now - 1) fragments.now.built.now))
        buffer.old) }
{
    check_fixup(buffer, fragments)?;
    fixup_rows(buffer, fragments, first_stack_top);
    Ok(())
}
