// The finisher: the checks of the five finishing passes, and then all five. Pass 2 is made before pass 1: it reads and writes other cells, and
// decides 14, the last of the checks, while it counts.
ghost use Rattle.std.specs.Prelude.{◌≡◌, false, length, MatchResult};
ghost use Rattle.groups.specs.Answer.{refusal};
ghost use Rattle.groups.specs.Refusals.{number_of, told};
ghost use Rattle.rows.specs.passes.Passes.{sum_of, fragments_wrong, no_fragment, not_full, height_wrong, refusal_all, all_passes, unless_refused};
ghost use Rattle.rows.specs.ways.Finisher.{Passed, other_passes};

use crate::passes::fixup::fixup_rows;
use crate::passes::fragments::Fragments;
use crate::passes::halt::{pad, push_halt};
use crate::passes::helper_column::invert_helpers;
use crate::passes::multiplicity::write_multiplicities;
use crate::records::buffer::fewer_rows;
use crate::records::profile::{Profile, is_wrong};
use groups::refusal::Refusal;

// Refusal 11 of the height.
#[tactic(auto, unfolding(crate::specs::passes::Passes::height_wrong))]
fn height_wrong(cells: usize, rows: usize, height: usize) -> bool
    ensures { result ≡ height_wrong cells rows height }
{
    (height <= rows) | fewer_rows(cells, height)
}

// What the finisher refuses before it looks at the rows; where 14 is left, the number of rows.
#[tactic(auto, unfolding(crate::specs::passes::Passes::refusal_all, groups::specs::Answer::first_of))]
fn check_finish(
    profile: Profile,
    buffer: &[u64],
    fragments: &Fragments,
    height: usize,
) -> Result<usize, Refusal>
    ensures { MatchResult result
        (λ rows. (rows ≡ sum_of fragments.now.counts.now)
        × Passed profile (length buffer.now) fragments.now.size height fragments.now.counts.now fragments.now.built.now)
        (λ refusal. number_of refusal ≡ refusal_all profile buffer.now fragments.now.size fragments.now.counts.now fragments.now.built.now height) }
{
    if is_wrong(profile) {
        return Err(Refusal::BadProfile);
    }
    let rows = fragments.rows_in(buffer.len())?;
    if height_wrong(buffer.len(), rows, height) {
        return Err(Refusal::BadLength);
    }
    if fragments.none() {
        return Err(Refusal::NoFragments);
    }
    if fragments.not_full() {
        return Err(Refusal::FragmentNotFull);
    }
    Ok(rows)
}

// The passes but the second.
fn finish_rows(
    profile: Profile,
    buffer: &mut [u64],
    rows: usize,
    fragments: &Fragments,
    first_stack_top: [u64; 16],
    height: usize,
)
    requires rows_value { rows ≡ sum_of fragments.now.counts.now }
    requires built_value { (fragments_wrong (length buffer.old) fragments.now.size fragments.now.counts.now fragments.now.built.now ≡ false)
        × (height_wrong (length buffer.old) (sum_of fragments.now.counts.now) height ≡ false) }
    requires counts_value { (no_fragment fragments.now.counts.now ≡ false) × (not_full fragments.now.size fragments.now.counts.now ≡ false) }
    ensures { buffer.new ≡ other_passes profile fragments.now.size fragments.now.counts.now fragments.now.built.now first_stack_top height
        buffer.old }
{
    fixup_rows(buffer, fragments, first_stack_top);
    invert_helpers(buffer, rows);
    push_halt(profile, buffer, rows, fragments.last_built());
    pad(profile, buffer, rows + 1, height);
}

// All five finishing passes on the buffer that holds the fragments one after another from row 0 on: afterwards its first `height` rows
// are the finished trace. A refusal changes nothing.
#[tactic(auto, unfolding(crate::specs::passes::Passes::refusal_all, groups::specs::Answer::first_of))]
pub fn finish(
    profile: Profile,
    buffer: &mut [u64],
    fragments: &Fragments,
    first_stack_top: [u64; 16],
    height: usize,
) -> Result<(), Refusal>
    ensures value { refusal (told result) ≡ refusal_all profile buffer.old fragments.now.size fragments.now.counts.now fragments.now.built.now height }
    ensures buffer_after { buffer.new ≡ unless_refused
        (refusal_all profile buffer.old fragments.now.size fragments.now.counts.now fragments.now.built.now height)
        buffer.old
        (all_passes profile fragments.now.size fragments.now.counts.now fragments.now.built.now first_stack_top height buffer.old) }
{
    let rows = check_finish(profile, buffer, fragments, height)?;
    write_multiplicities(profile, buffer, rows)?;
    finish_rows(profile, buffer, rows, fragments, first_stack_top, height);
    Ok(())
}
