// Several forests in the lent slices, found through a directory of six numbers a forest: its first slot and how many it has (of `nodes`
// and `digests`), its first batch record and how many (of `batches` and `groups`), its first opcode and how many (of `ops`).
ghost use Rattle.std.specs.Prelude.{◌≡◌, ◌≤◌};
ghost use Rattle.rows.specs.records.Lent.{lent_forest};
ghost use Rattle.rows.specs.replay.Calls.{directory_entry, window, forest_in};

use crate::records::forest::LentForest;
use field::cell::item_or;
use groups::batch::LentBatches;

// Where a forest lies, in slots, batch records and opcodes.
#[derive(Clone, Copy)]
pub struct DirectoryEntry {
    pub first_slot: u32,
    pub slots: u32,
    pub first_batch: u32,
    pub batches: u32,
    pub first_op: u32,
    pub ops: u32,
}

// The parts of a forest; of a number that is not in the directory, empty ones.
#[tactic(auto, unfolding(crate::specs::replay::Calls::directory_entry))]
pub fn directory_entry(directory: &[u32], forest: u64) -> DirectoryEntry
    ensures { result ≡ directory_entry directory.now forest }
{
    if (directory.len() / 6) as u64 <= forest {
        return DirectoryEntry {
            first_slot: 0,
            slots: 0,
            first_batch: 0,
            batches: 0,
            first_op: 0,
            ops: 0,
        };
    }
    let at = 6 * (forest as usize);
    DirectoryEntry {
        first_slot: item_or(directory, at, 0),
        slots: item_or(directory, at + 1, 0),
        first_batch: item_or(directory, at + 2, 0),
        batches: item_or(directory, at + 3, 0),
        first_op: item_or(directory, at + 4, 0),
        ops: item_or(directory, at + 5, 0),
    }
}

// `count` records of a width from record `first` on, as far as they are in the slice.
#[tactic(auto, unfolding(crate::specs::replay::Calls::window))]
pub fn part_of<T>(s: &[T], width: usize, first: u32, count: u32) -> &[T]
    requires { width ≤ 12 }
    ensures { result.now ≡ window width first count s.now }
{
    let start = s.len().min(width * (first as usize));
    let end = start + (s.len() - start).min(width * (count as usize));
    &s[start..end]
}

impl<'a> LentForest<'a> {
    // The forest that lies there.
    #[tactic(auto, unfolding(crate::specs::replay::Calls::forest_in))]
    pub(crate) fn part(&self, entry: DirectoryEntry) -> LentForest<'a>
        ensures { lent_forest result ≡ forest_in (lent_forest self.now) entry }
    {
        LentForest {
            nodes: part_of(self.nodes, 6, entry.first_slot, entry.slots),
            digests: part_of(self.digests, 4, entry.first_slot, entry.slots),
            batches: LentBatches {
                records: part_of(self.batches.records, 12, entry.first_batch, entry.batches),
                groups: part_of(self.batches.groups, 8, entry.first_batch, entry.batches),
            },
            ops: part_of(self.ops, 1, entry.first_op, entry.ops),
        }
    }
}
