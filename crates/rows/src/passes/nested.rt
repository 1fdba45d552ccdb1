// The second finishing pass where loops nest as in a run: the LOOP rows that are open stand on a stack, and each flagged END is the body's of the
// innermost one. One sweep decides, and counts in the LOOP rows themselves, which must hold 0 for that, as a start row does. Where it gives up, be it
// in the last row, the counts are cleared again and nothing is said; then `multiplicity` answers by tables.
ghost use Rattle.std.specs.Prelude.{◌≡◌, true, false, ◌+◌, ◌-◌, ◌*◌, ◌<◌, ◌≤◌, length, get_or, set, MatchResult};
ghost use Rattle.field.specs.Modulus.{P};
ghost use Rattle.groups.specs.Constants.{row_width, most_rows};
ghost use Rattle.rows.specs.records.Buffers.{buffer_row, opcode_of};
ghost use Rattle.rows.specs.ways.OpenLoops.{RoleOf, CountsIn, Cleared, AllCounted};

use crate::passes::multiplicity::{addr_at, is_loop};
use crate::records::buffer::{decode_opcode, is_low};
use crate::records::profile::Profile;
use field::cell::cell;
use field::felt::Felt;
use groups::constants::{Column, Row};

// What a row is to the sweep: a LOOP row, a flagged END of the innermost open loop's body, neither of both, or something that it does not go into.
#[derive(Clone, Copy)]
pub(crate) enum RowRole {
    Other,
    Opens,
    Ends,
    Unknown,
}

// The LOOP rows that are open, the innermost last, behind a place that is none's; and what the next one's address may not be below.
#[derive(Drop)]
struct OpenLoops {
    rows: [usize; 65],
    depth: usize,
    above: u64,
}

impl OpenLoops {
    // The innermost.
    fn top(&self) -> usize
        requires { self.now.depth ≤ 64 }
        ensures { result ≡ get_or self.now.rows self.now.depth 0 }
    {
        self.rows[self.depth]
    }

    // Whether a LOOP row can be counted: there is room for it, the address behind it is above those before, and it holds 0.
    fn takes(&self, addr: u64, held: u64) -> bool
        ensures { result ≡ true → (self.now.depth < 64) × (self.now.above ≤ addr) × (held ≡ 0) }
    {
        (self.depth < 64) & ((self.above <= addr) & (held == 0))
    }

    // Row i is the innermost.
    fn push(&mut self, i: usize, addr: u64)
        requires { (self.old.depth < 64) × (addr < P) }
        ensures { (self.new.rows ≡ set self.old.rows (self.old.depth + 1) i) × (self.new.depth ≡ self.old.depth + 1) × (self.new.above ≡ addr + 1) }
    {
        self.depth += 1;
        self.rows[self.depth] = i;
        self.above = addr + 1;
    }
}

// An END: whether it is flagged, and the row behind it has the address behind LOOP row `top`.
fn end_role(profile: Profile, buffer: &[u64], i: usize, depth: usize, top: usize) -> RowRole
    requires { (i < most_rows) × (top < most_rows) × (opcode_of (buffer_row i buffer.now) ≡ profile.end) }
    ensures { RoleOf profile buffer.now i depth top result }
{
    if profile.loop_op == profile.end {
        return RowRole::Unknown;
    }
    if cell(buffer, Row::WIDTH * i + Column::H4) != Felt::ONE {
        return RowRole::Other;
    }
    if depth == 0 {
        return RowRole::Unknown;
    }
    if addr_at(buffer, top + 1) == addr_at(buffer, i + 1) {
        return RowRole::Ends;
    }
    RowRole::Unknown
}

// What row i is by its opcode, which is decoded once for both questions, where `depth` LOOP rows are open and `top` is the innermost.
fn decoded_role(profile: Profile, buffer: &[u64], i: usize, depth: usize, top: usize) -> RowRole
    requires { (i < most_rows) × (top < most_rows) }
    ensures { RoleOf profile buffer.now i depth top result }
{
    let opcode = decode_opcode(buffer, i);
    if opcode == u64::from(profile.end) {
        return end_role(profile, buffer, i, depth, top);
    }
    if opcode == u64::from(profile.loop_op) {
        return RowRole::Opens;
    }
    RowRole::Other
}

// The same. Where LOOP and END have the highest of the seven bits, a row without it is neither.
fn row_role(profile: Profile, buffer: &[u64], i: usize, depth: usize, top: usize) -> RowRole
    requires { (i < most_rows) × (top < most_rows) }
    ensures { RoleOf profile buffer.now i depth top result }
{
    if is_low(buffer, i) {
        if 64 <= profile.loop_op {
            if 64 <= profile.end {
                return RowRole::Other;
            }
        }
    }
    decoded_role(profile, buffer, i, depth, top)
}

// How many LOOP rows are open behind the END of a body: as many as before where another pass follows it.
fn left_open(profile: Profile, buffer: &[u64], next: usize, depth: usize) -> usize
    requires { 0 < depth }
    ensures { (result ≤ depth) × (depth ≤ result + 1) }
{
    if decode_opcode(buffer, next) == u64::from(profile.repeat) {
        return depth;
    }
    depth - 1
}

// Counts in the LOOP rows the ENDs of their bodies, but for the last row. An error is the row where it gave up, or the last row with a LOOP row still
// open.
fn sweep(profile: Profile, buffer: &mut [u64], rows: usize) -> Result<(), usize>
    requires { (row_width * rows ≤ length buffer.old) × (rows ≤ most_rows) }
    ensures { MatchResult result
        (λ done. CountsIn profile buffer.old 0 (rows - 1) buffer.new × AllCounted profile rows buffer.old buffer.new)
        (λ next. (next ≤ rows) × CountsIn profile buffer.old 0 next buffer.new) }
{
    let mut open = OpenLoops {
        rows: [0; 65],
        depth: 0,
        above: 0,
    };
    let last = rows.saturating_sub(1);
    for i in 0..last {
        let top = open.top();
        match row_role(profile, buffer, i, open.depth, top) {
            RowRole::Other => {}
            RowRole::Opens => {
                let addr = addr_at(buffer, i + 1);
                let held = buffer[Row::WIDTH * i + Column::GROUP_COUNT];
                if !open.takes(addr, held) {
                    return Err(i);
                }
                open.push(i, addr);
            }
            RowRole::Ends => {
                buffer[Row::WIDTH * top + Column::GROUP_COUNT] += 1;
                open.depth = left_open(profile, buffer, i + 1, open.depth);
            }
            RowRole::Unknown => {
                return Err(i);
            }
        }
    }
    if open.depth != 0 {
        return Err(last);
    }
    Ok(())
}

// Puts 0 into the LOOP rows before row `end`: what a sweep that gave up there has counted is gone.
fn clear_counts(profile: Profile, buffer: &mut [u64], end: usize)
    requires { (row_width * end ≤ length buffer.old) × (end ≤ most_rows) }
    ensures { Cleared profile end buffer.old buffer.new }
{
    for i in 0..end {
        if is_loop(profile, buffer, i) {
            buffer[Row::WIDTH * i + Column::GROUP_COUNT] = 0;
        }
    }
}

// Each LOOP row but the last row gets the number of its body's ENDs, and none is 0. False says nothing and changes nothing.
// A bool, as there is nothing to hand on.
pub(crate) fn count_nested(profile: Profile, buffer: &mut [u64], rows: usize) -> bool
    requires { (row_width * rows ≤ length buffer.old) × (rows ≤ most_rows) }
    ensures { (result ≡ true → AllCounted profile rows buffer.old buffer.new)
        × (result ≡ false → buffer.new ≡ buffer.old) }
{
    let Err(next) = sweep(profile, buffer, rows) else {
        return true;
    };
    clear_counts(profile, buffer, next);
    false
}
