// The checks of a finish that look at a whole forest. Profile and forest do not change between cycles, so what a scan of them finds is a
// value of its own.
ghost use Rattle.std.specs.Prelude.{◌≡◌, ◌/◌, length};
ghost use Rattle.rows.specs.cycles.Scans.{any_long_block, any_large_batch, scan_of};

use crate::records::profile::{Profile, any_big_opcode, is_wrong};

// What a scan finds: an opcode that is too big (1), a wrong profile (2), a forest past its limits (11).
// Each flag is a finding of its own, as the definition says them.
#[derive(Clone, Copy)]
pub struct Scan {
    pub big: bool,
    pub profile_wrong: bool,
    pub too_large: bool,
}

// Whether a slot is a block with over 4,096 batches. This scan and the next look at all, for the speed that `any_big_opcode` has; they share a loop's
// head, and no more.
#[tactic(auto, unfolding(crate::specs::cycles::Scans::any_long_block))]
fn any_long_block(nodes: &[u32]) -> bool
    ensures { result ≡ any_long_block nodes.now (length nodes.now / 6) }
{
    let mut found = false;
    for k in 0..nodes.len() / 6 {
        found |= (nodes[6 * k] == 2) & (4096 < nodes[6 * k + 5]);
    }
    found
}

// Whether a batch record has a group count above 8.
#[tactic(auto, unfolding(crate::specs::cycles::Scans::any_large_batch))]
fn any_large_batch(batches: &[u32]) -> bool
    ensures { result ≡ any_large_batch batches.now (length batches.now / 12) }
{
    let mut found = false;
    for k in 0..batches.len() / 12 {
        found |= 8 < batches[12 * k];
    }
    found
}

// A scan of profile and forest.
#[tactic(auto, unfolding(crate::specs::cycles::Scans::any_big_opcode, crate::specs::cycles::Scans::forest_too_large, crate::specs::cycles::Scans::scan_of))]
pub fn scan_lent(profile: Profile, nodes: &[u32], batches: &[u32], ops: &[u8]) -> Scan
    ensures { result ≡ scan_of profile nodes.now batches.now ops.now }
{
    Scan {
        big: any_big_opcode(ops),
        profile_wrong: is_wrong(profile),
        too_large: any_long_block(nodes) | any_large_batch(batches),
    }
}
