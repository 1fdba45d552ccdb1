// The numbers of the index, by one scan of the rows with the places of the open blocks.
ghost use Rattle.std.specs.Prelude.{◌≡◌, [], ◌++◌, ◌+◌, ◌*◌, ◌-◌, ◌/◌, ◌<◌, ◌≤◌, length, get_or, drop};
ghost use Rattle.groups.specs.Constants.{row_width, most_rows};
ghost use Rattle.theory_indexes.specs.ways.IndexScan.{begins, ends, index_scan, starts, Fits};
ghost use Rattle.reader.specs.Rows.{word_in};
ghost use Rattle.reader.specs.ways.FromRow.{rows_from};
ghost use Rattle.reader.specs.KeptKinds.{KeptKinds};
ghost use Rattle.index.specs.ways.Steps.{told_change, progress_of, around_in, index_behind, stack_behind, progress_behind, Room};

use crate::change::{Change, change_at};
use groups::constants::Row;
use reader::kept::LentTrace;

// The open blocks, the innermost last, each by where its numbers begin; and where the numbers of the next block go.
#[derive(Drop)]
struct OpenBlocks {
    places: [usize; 64],
    opened: usize,
    next: usize,
}

impl OpenBlocks {
    // The start row of the enclosing block; the root names itself.
    #[tactic(auto, unfolding(crate::specs::ways::Steps::around_in))]
    fn around(&self, row: u32, index: &[u32]) -> u32
        requires { (self.now.opened ≤ 64) × (0 < self.now.opened → get_or self.now.places (self.now.opened - 1) 0 < length index.now) }
        ensures { result ≡ around_in row self.now.opened self.now.places index.now }
    {
        if self.opened == 0 {
            return row;
        }
        index[self.places[self.opened - 1]]
    }

    // A start row: its block's numbers, the END row still 0.
    #[tactic(auto, unfolding(crate::specs::ways::Steps::Room, crate::specs::ways::Steps::index_behind, crate::specs::ways::Steps::stack_behind, crate::specs::ways::Steps::progress_behind))]
    fn start_row(&mut self, row: u32, index: &mut [u32])
        requires { Room begins (progress_of self.old) self.old.places index.old }
        ensures value { progress_of self.new ≡ progress_behind begins (progress_of self.old) }
        ensures stack_after { self.new.places ≡ stack_behind begins (progress_of self.old) self.old.places }
        ensures index_after { index.new ≡ index_behind begins row (progress_of self.old) self.old.places index.old }
    {
        let next = self.next;
        let outer = self.around(row, index);
        index[next] = row;
        index[next + 1] = 0;
        index[next + 2] = outer;
        self.places[self.opened] = next;
        self.opened += 1;
        self.next += 3;
    }

    // An END row: the END of the innermost open block.
    #[tactic(auto, unfolding(crate::specs::ways::Steps::Room, crate::specs::ways::Steps::index_behind, crate::specs::ways::Steps::stack_behind, crate::specs::ways::Steps::progress_behind))]
    fn end_row(&mut self, row: u32, index: &mut [u32])
        requires { Room ends (progress_of self.old) self.old.places index.old }
        ensures value { progress_of self.new ≡ progress_behind ends (progress_of self.old) }
        ensures stack_after { self.new.places ≡ stack_behind ends (progress_of self.old) self.old.places }
        ensures index_after { index.new ≡ index_behind ends row (progress_of self.old) self.old.places index.old }
    {
        self.opened -= 1;
        let place = self.places[self.opened];
        index[place + 1] = row;
    }

    // What a row adds.
    #[tactic(auto, unfolding(crate::specs::ways::Steps::index_behind, crate::specs::ways::Steps::stack_behind, crate::specs::ways::Steps::progress_behind))]
    fn step(&mut self, change: Change, row: u32, index: &mut [u32])
        requires { Room (told_change change) (progress_of self.old) self.old.places index.old }
        ensures value { progress_of self.new ≡ progress_behind (told_change change) (progress_of self.old) }
        ensures stack_after { self.new.places ≡ stack_behind (told_change change) (progress_of self.old) self.old.places }
        ensures index_after { index.new ≡ index_behind (told_change change) row (progress_of self.old) self.old.places index.old }
    {
        match change {
            Change::Begins => self.start_row(row, index),
            Change::Ends => self.end_row(row, index),
            Change::Stays => {}
        }
    }
}

// Fills three numbers for each block; the numbers past them stay.
pub(crate) fn fill(lent: &LentTrace<'_>, index: &mut [u32], kinds: &[u8])
    requires { (length lent.now.cells.now / row_width ≤ most_rows)
        × (3 * starts (rows_from (word_in lent.now.profile lent.now.cells.now) 0) ≤ length index.old)
        × Fits 0 (rows_from (word_in lent.now.profile lent.now.cells.now) 0)
        × KeptKinds lent.now.profile lent.now.cells.now lent.now.table.now kinds.now }
    ensures { index.new ≡ index_scan (rows_from (word_in lent.now.profile lent.now.cells.now) 0) [] []
        ++ drop (3 * starts (rows_from (word_in lent.now.profile lent.now.cells.now) 0)) index.old }
{
    let mut blocks = OpenBlocks {
        places: [0; 64],
        opened: 0,
        next: 0,
    };
    for at in 0..lent.cells.len() / Row::WIDTH {
        let change = change_at(lent, at, kinds);
        blocks.step(change, at as u32, index);
    }
}
