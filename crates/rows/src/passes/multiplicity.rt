// The second finishing pass, `set_loop_body_multiplicities`: each LOOP row but the last row gets the number of its body's ENDs.
//
// `nested` is asked first, which writes all counts or says nothing. Then the tables answer: LOOP rows are taken some thousands at a time. The
// addresses behind them are sorted, and one sweep over all rows counts each flagged END at the address behind it; the LOOP rows taken then look
// their counts up.
ghost use Rattle.std.specs.Prelude.{◌≡◌, ◌||◌, ℕ, ◌+◌, ◌*◌, ◌<◌, ◌≤◌, eqb, length, take, get_or};
ghost use Rattle.groups.specs.Answer.{pick, refusal};
ghost use Rattle.groups.specs.Constants.{row_width, most_rows, no_body_end};
ghost use Rattle.groups.specs.Refusals.{told};
ghost use Rattle.rows.specs.ways.Order.{occurrences, Ordered};
ghost use Rattle.rows.specs.records.Buffers.{rows_of, on_rows, addr_of, buffer_row, opcode_of};
ghost use Rattle.rows.specs.passes.Passes.{flagged_end, multiplied, loop_without_body, refusal2, unless_refused};
ghost use Rattle.rows.specs.ways.LoopCounts.{is_loop, ends_in, lacks_from, counted_from, Alike, Tallied, Bumped, Took, Table};

use crate::passes::nested::count_nested;
use crate::records::buffer::{buffer_wrong, decode_opcode, fewer_rows, is_low};
use crate::records::profile::{Profile, is_wrong};
use crate::sorted::{lower, sort};
use field::cell::{cell, item_or};
use field::felt::Felt;
use groups::constants::{Column, Row};
use groups::refusal::Refusal;

// Whether row i has the opcode. Where that has the highest of the seven bits, a row without it is not decoded.
fn has_opcode(buffer: &[u64], i: usize, opcode: u8) -> bool
    requires { i < most_rows }
    ensures { result ≡ eqb (opcode_of (buffer_row i buffer.now)) opcode }
{
    if 64 <= opcode {
        if is_low(buffer, i) {
            return false;
        }
    }
    decode_opcode(buffer, i) == u64::from(opcode)
}

pub(crate) fn is_loop(profile: Profile, buffer: &[u64], i: usize) -> bool
    requires { i < most_rows }
    ensures { result ≡ is_loop profile (buffer_row i buffer.now) }
{
    has_opcode(buffer, i, profile.loop_op)
}

pub(crate) fn is_flagged_end(profile: Profile, buffer: &[u64], i: usize) -> bool
    requires { i < most_rows }
    ensures { result ≡ flagged_end profile (buffer_row i buffer.now) }
{
    if cell(buffer, Row::WIDTH * i + Column::H4) == Felt::ONE {
        has_opcode(buffer, i, profile.end)
    } else {
        false
    }
}

pub(crate) fn addr_at(buffer: &[u64], i: usize) -> u64
    requires { i ≤ most_rows }
    ensures { result ≡ addr_of (buffer_row i buffer.now) }
{
    cell(buffer, Row::WIDTH * i + Column::ADDR)
}

// The LOOP rows of a part of the rows: the addresses behind them, so many of them and in order, and at the first place of each the number of flagged
// ENDs that it stands behind.
#[derive(Drop)]
struct LoopTable {
    len: usize,
    keys: [u64; 4096],
    counts: [u64; 4096],
}

impl LoopTable {
    // Takes the LOOP rows from row `from` on, as many as there is room for, and answers the row behind the last of them.
    fn gather(&mut self, profile: Profile, buffer: &[u64], rows: usize, from: usize) -> usize
        requires { (from + 1 < rows) × (rows ≤ most_rows) }
        ensures { Took profile buffer.now rows from self.new.keys self.new.len result }
    {
        self.len = 0;
        for next in from..rows - 1 {
            if self.len == 4096 {
                return next;
            }
            if is_loop(profile, buffer, next) {
                self.keys[self.len] = addr_at(buffer, next + 1);
                self.len += 1;
            }
        }
        rows - 1
    }

    // Adds 1 to the count of the key x, if there is such a key.
    fn bump(&mut self, x: u64)
        requires { (self.old.len ≤ 4096) × Ordered (take self.old.len self.old.keys) × ((p : ℕ) → get_or self.old.counts p 0 < most_rows) }
        ensures { (self.new.len ≡ self.old.len) × (self.new.keys ≡ self.old.keys) × Bumped (take self.old.len self.old.keys) x self.old.counts self.new.counts }
    {
        let at = lower(&self.keys[..self.len], x);
        if at < self.len {
            if self.keys[at] == x {
                self.counts[at] += 1;
            }
        }
    }

    // Counts, at the first place of each key, the flagged ENDs but the last row that have the key's address behind them.
    fn count_ends(&mut self, profile: Profile, buffer: &[u64], rows: usize)
        requires { (0 < rows) × (rows ≤ most_rows) × (self.old.len ≤ 4096) × Ordered (take self.old.len self.old.keys) }
        ensures { (self.new.len ≡ self.old.len) × (self.new.keys ≡ self.old.keys)
            × Tallied (take self.old.len self.old.keys) self.new.counts (ends_in profile rows buffer.now) }
    {
        self.counts = [0; 4096];
        for i in 0..rows - 1 {
            if is_flagged_end(profile, buffer, i) {
                let x = addr_at(buffer, i + 1);
                self.bump(x);
            }
        }
    }

    // The table of the LOOP rows from row `from` to the row that is answered.
    fn fill(&mut self, profile: Profile, buffer: &[u64], rows: usize, from: usize) -> usize
        requires { (from + 1 < rows) × (rows ≤ most_rows) }
        ensures { (self.new.len ≤ 4096) × (from < result) × (result < rows)
            × Table profile buffer.now rows from result (take self.new.len self.new.keys) self.new.counts }
    {
        let next = self.gather(profile, buffer, rows, from);
        sort(&mut self.keys[..self.len]);
        self.count_ends(profile, buffer, rows);
        next
    }

    // The count of the key x.
    fn count_of(&self, x: u64) -> u64
        requires { self.now.len ≤ 4096 }
        ensures { Ordered (take self.now.len self.now.keys) → 0 < occurrences x (take self.now.len self.now.keys) → (count : ℕ → ℕ)
            → Tallied (take self.now.len self.now.keys) self.now.counts count → result ≡ count x }
    {
        item_or(&self.counts, lower(&self.keys[..self.len], x), 0)
    }

    // Whether the count of a LOOP row from `from` to `next` is 0.
    fn any_between(
        &self,
        profile: Profile,
        buffer: &[u64],
        rows: usize,
        from: usize,
        next: usize,
    ) -> bool
        requires from_le_next { (from ≤ next) × (next < rows) × (rows ≤ most_rows) × (self.now.len ≤ 4096) }
        requires table { Table profile buffer.now rows from next (take self.now.len self.now.keys) self.now.counts }
        ensures { (result || lacks_from profile (ends_in profile rows buffer.now) rows next buffer.now)
            ≡ lacks_from profile (ends_in profile rows buffer.now) rows from buffer.now }
    {
        for i in from..next {
            if is_loop(profile, buffer, i) {
                if self.count_of(addr_at(buffer, i + 1)) == 0 {
                    return true;
                }
            }
        }
        false
    }

    // Each LOOP row from `from` to `next` gets its count.
    // Not one function with a closure for both: the rows are read of the buffer that the closure would write.
    fn write_between(
        &self,
        profile: Profile,
        buffer: &mut [u64],
        rows: usize,
        from: usize,
        next: usize,
    )
        requires from_le_next { (from ≤ next) × (next < rows) × (rows ≤ most_rows) × (row_width * rows ≤ length buffer.old) × (self.now.len ≤ 4096) }
        requires table { Table profile buffer.old rows from next (take self.now.len self.now.keys) self.now.counts }
        ensures { Alike buffer.new buffer.old
            × (counted_from profile (ends_in profile rows buffer.old) rows next buffer.new
            ≡ counted_from profile (ends_in profile rows buffer.old) rows from buffer.old) }
    {
        for i in from..next {
            if is_loop(profile, buffer, i) {
                let count = self.count_of(addr_at(buffer, i + 1));
                buffer[Row::WIDTH * i + Column::GROUP_COUNT] = count;
            }
        }
    }
}

// Refusal 14, by tables: whether the count of a LOOP row but the last comes to 0. Nothing is written before this is known of all, so the rows are
// walked twice; one walk with a closure would have to lend the buffer that it reads to what writes it.
fn any_by_tables(profile: Profile, buffer: &[u64], rows: usize) -> bool
    requires { (row_width * rows ≤ length buffer.now) × (rows ≤ most_rows) }
    ensures { result ≡ loop_without_body profile (rows_of rows buffer.now) }
{
    let mut table = LoopTable {
        len: 0,
        keys: [0; 4096],
        counts: [0; 4096],
    };
    let mut from: usize = 0;
    // By `while`: each table says where the next begins.
    while from + 1 < rows {
        let next = table.fill(profile, buffer, rows, from);
        if table.any_between(profile, buffer, rows, from, next) {
            return true;
        }
        from = next;
    }
    false
}

// Each LOOP row but the last row gets the number of its body's ENDs, by tables.
fn write_by_tables(profile: Profile, buffer: &mut [u64], rows: usize)
    requires { (row_width * rows ≤ length buffer.old) × (rows ≤ most_rows) }
    ensures { buffer.new ≡ on_rows rows (multiplied profile) buffer.old }
{
    let mut table = LoopTable {
        len: 0,
        keys: [0; 4096],
        counts: [0; 4096],
    };
    let mut from: usize = 0;
    // By `while`: each table says where the next begins.
    while from + 1 < rows {
        let next = table.fill(profile, buffer, rows, from);
        table.write_between(profile, buffer, rows, from, next);
        from = next;
    }
}

// Refusal 14: whether the count of a LOOP row but the last comes to 0. Where none does, each gets it.
pub(crate) fn write_multiplicities(
    profile: Profile,
    buffer: &mut [u64],
    rows: usize,
) -> Result<(), Refusal>
    requires { (row_width * rows ≤ length buffer.old) × (rows ≤ most_rows) }
    ensures value { refusal (told result) ≡ pick (loop_without_body profile (rows_of rows buffer.old)) no_body_end 0 }
    ensures buffer_after { buffer.new ≡ pick (loop_without_body profile (rows_of rows buffer.old)) buffer.old (on_rows rows (multiplied profile) buffer.old) }
{
    if count_nested(profile, buffer, rows) {
        return Ok(());
    }
    if any_by_tables(profile, buffer, rows) {
        return Err(Refusal::NoBodyEnd);
    }
    write_by_tables(profile, buffer, rows);
    Ok(())
}

// Finishing pass 2: each LOOP row but the last of the first `rows` rows gets the number of its body's ENDs. A refusal changes nothing.
#[tactic(auto, unfolding(crate::specs::passes::Passes::refusal2, groups::specs::Answer::first_of))]
pub fn set_loop_body_multiplicities(
    profile: Profile,
    buffer: &mut [u64],
    rows: usize,
) -> Result<(), Refusal>
    ensures value { refusal (told result) ≡ refusal2 profile buffer.old rows }
    ensures buffer_after { buffer.new ≡ unless_refused (refusal2 profile buffer.old rows) buffer.old
        (on_rows rows (multiplied profile) buffer.old) }
{
    if is_wrong(profile) {
        return Err(Refusal::BadProfile);
    }
    if buffer_wrong(buffer.len()) | fewer_rows(buffer.len(), rows) {
        return Err(Refusal::BadLength);
    }
    write_multiplicities(profile, buffer, rows)
}
