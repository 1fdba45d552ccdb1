// The lent tally of a cycle: 256 places, each an address and then its count.
// Each place is two numbers, an address and its count, as C lends the tally; it is in the order of first use, so that it is no sorted list.
ghost use Rattle.std.specs.Prelude.{◌≡◌, ◌<◌, ◌≤◌, length};
ghost use Rattle.groups.specs.Constants.{most_rows};
ghost use Rattle.groups.specs.Answer.{accepted};
ghost use Rattle.groups.specs.Refusals.{told};
ghost use Rattle.rows.specs.cycles.LentTally.{count_in, is_free, is_of, place_for, counted_at, cannot_count, counts_next, with_tally, unless_full, tally_after};

use crate::cycles::made::MadeRow;
use crate::cycles::scan::Scan;
use crate::passes::multiplicity::is_flagged_end;
use crate::records::profile::Profile;
use field::cell::{cell, item_or};
use field::felt::reduce;
use groups::constants::Row;
use groups::refusal::Refusal;

// A scan's answer, and 11 for a tally of fewer places.
pub(crate) fn with_tally(numbers: usize, scan: Scan) -> Scan
    ensures { result ≡ with_tally numbers scan }
{
    Scan {
        too_large: scan.too_large | (numbers < 512),
        ..scan
    }
}

#[tactic(auto, unfolding(crate::specs::cycles::LentTally::is_free))]
fn is_free(tally: &[u64], place: usize) -> bool
    requires { place ≤ 256 }
    ensures { result ≡ is_free tally.now place }
{
    item_or(tally, 2 * place + 1, 0) == 0
}

// Whether a place is in use with the address.
#[tactic(auto, unfolding(crate::specs::cycles::LentTally::is_of))]
fn is_of(tally: &[u64], addr: u64, place: usize) -> bool
    requires { place ≤ 256 }
    ensures { result ≡ is_of tally.now addr place }
{
    !is_free(tally, place) & (cell(tally, 2 * place) == addr)
}

// The first place in use with the address, else the first free one; 256 where there is neither.
// No Option: the definition answers 256, and both refusals of a place are one comparison with it.
#[tactic(auto, unfolding(crate::specs::cycles::LentTally::place_for))]
fn place_for(tally: &[u64], addr: u64) -> usize
    ensures value { result ≡ place_for tally.now addr }
    ensures upper_bound { result ≤ 256 }
{
    let mut free: usize = 256;
    for place in 0..256 {
        if is_of(tally, addr, place) {
            return place;
        }
        if (free == 256) & is_free(tally, place) {
            free = place;
        }
    }
    free
}

// Refusal 32: no place is left, or the count at the place can't grow.
#[tactic(auto, unfolding(crate::specs::cycles::LentTally::cannot_count))]
fn cannot_count(tally: &[u64], place: usize) -> bool
    requires { place ≤ 256 }
    ensures { result ≡ cannot_count tally.now place }
{
    (256 <= place) | (Row::MOST as u64 <= item_or(tally, 2 * place + 1, 0))
}

// Counts the address at a place.
#[tactic(auto, unfolding(crate::specs::cycles::LentTally::counted_at))]
fn count_at(tally: &mut [u64], addr: u64, place: usize)
    requires { (place < 256) × (512 ≤ length tally.old) × (count_in tally.old place < most_rows) }
    ensures { tally.new ≡ counted_at tally.old addr place }
{
    if is_free(tally, place) {
        tally[2 * place] = addr;
        tally[2 * place + 1] = 1;
    } else {
        tally[2 * place + 1] += 1;
    }
}

// Whether the row before is a flagged END.
#[tactic(auto, unfolding(crate::specs::cycles::LentTally::counts_next))]
fn counts_next(profile: Profile, fragment: &[u64], rows: usize) -> bool
    requires { rows < most_rows }
    ensures { result ≡ counts_next profile fragment.now rows }
{
    if rows == 0 {
        return false;
    }
    is_flagged_end(profile, fragment, rows - 1)
}

// Counts the address of a row that was made where the row before is a flagged END, or refuses with 32.
#[tactic(auto, unfolding(crate::specs::cycles::LentTally::unless_full, crate::specs::cycles::LentTally::tally_after))]
pub(crate) fn count_row(
    profile: Profile,
    tally: &mut [u64],
    fragment: &[u64],
    rows: usize,
    made: MadeRow,
) -> Result<MadeRow, Refusal>
    requires { (rows < most_rows) × (512 ≤ length tally.old) }
    ensures result_value { told result ≡ unless_full profile tally.old fragment.now rows (accepted made) }
    ensures tally_after { tally.new ≡ tally_after profile tally.old fragment.now rows
        (unless_full profile tally.old fragment.now rows (accepted made)) }
{
    if !counts_next(profile, fragment, rows) {
        return Ok(made);
    }
    let addr = reduce(made.row.addr);
    let place = place_for(tally, addr);
    if cannot_count(tally, place) {
        return Err(Refusal::TallyFull);
    }
    count_at(tally, addr, place);
    Ok(made)
}
