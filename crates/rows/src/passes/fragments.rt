// The fragments of a run, as the passes are told of them, and what is refused of them.
ghost use Rattle.std.specs.Prelude.{◌≡◌, true, false, ◌*◌, ◌≤◌, ◌<◌, min, length, MatchResult};
ghost use Rattle.groups.specs.declared.refusal.Refusal.{Refusal};
ghost use Rattle.rows.specs.passes.Passes.{sum_of, any_above, not_full, no_fragment, fragments_wrong, last_built};

use crate::records::row::fragment_wrong;
use groups::constants::Row;
use groups::refusal::Refusal;

// So many rows a fragment may have, each has, and 25 built cells of each.
#[derive(Clone, Copy)]
pub struct Fragments<'a> {
    pub size: usize,
    pub counts: &'a [u32],
    pub built: &'a [u64],
}

impl<'a> Fragments<'a> {
    // The sum of the row counts, or the cap where it is less.
    pub(crate) fn sum_up_to(&self, cap: usize) -> usize
        ensures { result ≡ min cap (sum_of self.now.counts.now) }
    {
        let mut sum = 0;
        for count in self.counts {
            sum += (*count as usize).min(cap - sum);
        }
        sum
    }

    // Whether a row count is above the fragment size.
    fn any_above(&self) -> bool
        ensures { result ≡ any_above self.now.size self.now.counts.now }
    {
        self.counts.iter().any(|count| self.size < *count as usize)
    }

    // The sum of the row counts; 11 of pass 1, for a buffer of so many cells.
    pub(crate) fn rows_in(&self, cells: usize) -> Result<usize, Refusal>
        ensures { MatchResult result
            (λ rows. (rows ≡ sum_of self.now.counts.now) × (fragments_wrong cells self.now.size self.now.counts.now self.now.built.now ≡ false))
            (λ refusal. (refusal ≡ Refusal.BadLength) × (fragments_wrong cells self.now.size self.now.counts.now self.now.built.now ≡ true)) }
    {
        let rows = self.sum_up_to(cells / Row::WIDTH + 1);
        if fragment_wrong(cells, rows)
            | ((self.size == 0)
                | (self.any_above() | (self.built.len() / 25 < self.counts.len())))
        {
            return Err(Refusal::BadLength);
        }
        Ok(rows)
    }

    // Refusal 26.
    pub(crate) fn none(&self) -> bool
        ensures { result ≡ no_fragment self.now.counts.now }
    {
        self.counts.is_empty()
    }

    // Refusal 25.
    pub(crate) fn not_full(&self) -> bool
        ensures { result ≡ not_full self.now.size self.now.counts.now }
    {
        let Some((last, others)) = self.counts.split_last() else {
            return false;
        };
        others.iter().any(|count| (*count as usize) < self.size) | (*last == 0)
    }
    // The built cells of the last fragment.
    #[tactic(auto, unfolding(crate::specs::passes::Passes::last_built))]
    pub(crate) fn last_built(&self) -> &'a [u64]
        requires { (0 < length self.now.counts.now) × (25 * length self.now.counts.now ≤ length self.now.built.now) }
        ensures { (result.now ≡ last_built self.now.counts.now self.now.built.now) × (length result.now ≡ 25) }
    {
        let at = 25 * (self.counts.len() - 1);
        &self.built[at..at + 25]
    }
}
