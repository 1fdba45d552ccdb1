// The calls for programs in other languages. Each passes its arguments on; its contract is that of the function it calls. A slice crosses
// as a pointer and a length, an array behind a reference as a pointer, a struct by value; instead of a part of a slice its place is answered.
// Every call takes any numbers and answers 0 or the documents' number of the refusal; a refused place is empty.
// C asks for this form: numbers for refusals and kinds in structs and answers, slices one by one, and no allocation.
#![tactic(auto)]

ghost use Rattle.std.specs.Prelude.{◌≡◌, ◌-◌, length};
ghost use Rattle.rows.specs.records.Buffers.{on_rows};
ghost use Rattle.rows.specs.passes.Passes.{sum_of, built_of, fixed_up, multiplied, inverted, halted, padded, refusal1, refusal2, refusal3, refusal4, refusal5, refusal_all, all_passes, unless_refused};
ghost use Rattle.rows.specs.records.Forests.{forest};
ghost use Rattle.rows.specs.records.Addresses.{queues};
ghost use Rattle.rows.specs.replay.Calls.{scanned, replayed, replayed_fragment};
ghost use Rattle.reader.specs.Reads.{ReadsTrace};
ghost use Rattle.field.specs.Inverse.{inverse_of};
ghost use Rattle.groups.specs.Answer.{refusal, values};
ghost use Rattle.groups.specs.GroupOfOperation.{place_of_op};
ghost use Rattle.theory_indexes.specs.Enclosing.{enclosing};
ghost use Rattle.index.specs.Building.{BuildsIndex};
ghost use Rattle.dump.specs.Dumping.{dumping, text_after, ReadsDump};
ghost use Rattle.exports.specs.Places.{trace_values, index_values, view_start, view_cells, enclosing_found, enclosing_place, no_place};

use dump::read_text::read_dump;
use dump::write::write_dump;
use field::inverse::inverse;
use groups::batch::LentBatches;
use groups::constants::Row;
use groups::group::op_place;
use groups::refusal::answered_number;
use index::build::build_index;
use index::enclosing::enclosing_block;
use reader::trace::read_trace;
use reader::view::row;
use rows::passes::finish::finish;
use rows::passes::fixup::fixup_stack_and_system_rows;
use rows::passes::fragments::Fragments;
use rows::passes::halt::{pad_core_row_major, push_halt_opcode_row};
use rows::passes::helper_column::invert_helper_column;
use rows::passes::multiplicity::set_loop_body_multiplicities;
use rows::records::address_state::{Cursor, DecoderState, LentQueues, Positions};
use rows::records::forest::LentForest;
use rows::records::profile::Profile;
use rows::replay::calls::{Replayed, replay_calls};

// The number, always 0, and the inverse.
#[repr(C)]
#[derive(Clone, Copy)]
pub struct Inverse {
    pub refusal: u32,
    pub value: u64,
}

// The inverse modulo p of any number, 0 for 0 and for p.
#[unsafe(no_mangle)]
pub extern "C" fn core_inverse(x: u64) -> Inverse
    ensures { (result.refusal ≡ 0) × (result.value ≡ inverse_of x) }
{
    Inverse {
        refusal: 0,
        value: inverse(x),
    }
}

// Pass 1: the system and stack cells of each fragment's first row.
#[unsafe(no_mangle)]
pub extern "C" fn core_fixup(
    buffer: &mut [u64],
    fragment_size: usize,
    counts: &[u32],
    built: &[u64],
    first_stack_top: &[u64; 16],
) -> u32
    ensures value { result ≡ refusal1 buffer.old fragment_size counts.now built.now }
    ensures buffer_after { buffer.new ≡ unless_refused
        (refusal1 buffer.old fragment_size counts.now built.now)
        buffer.old
        (on_rows (sum_of counts.now)
        (fixed_up fragment_size first_stack_top.now (built_of (length counts.now - 1) built.now))
        buffer.old) }
{
    let fragments = Fragments {
        size: fragment_size,
        counts,
        built,
    };
    answered_number(fixup_stack_and_system_rows(buffer, &fragments, *first_stack_top))
}

// Pass 2: each LOOP row's count.
#[unsafe(no_mangle)]
pub extern "C" fn core_multiplicities(profile: Profile, buffer: &mut [u64], rows: usize) -> u32
    ensures value { result ≡ refusal2 profile buffer.old rows }
    ensures buffer_after { buffer.new ≡ unless_refused (refusal2 profile buffer.old rows) buffer.old
        (on_rows rows (multiplied profile) buffer.old) }
{
    answered_number(set_loop_body_multiplicities(profile, buffer, rows))
}

// Pass 3: each helper cell becomes its inverse.
#[unsafe(no_mangle)]
pub extern "C" fn core_invert_helper_column(buffer: &mut [u64], rows: usize) -> u32
    ensures value { result ≡ refusal3 buffer.old rows }
    ensures buffer_after { buffer.new ≡ unless_refused (refusal3 buffer.old rows) buffer.old
        (on_rows rows inverted buffer.old) }
{
    answered_number(invert_helper_column(buffer, rows))
}

// Pass 4: the HALT row behind the program's rows.
#[unsafe(no_mangle)]
pub extern "C" fn core_push_halt(
    profile: Profile,
    buffer: &mut [u64],
    rows: usize,
    built: &[u64; 25],
) -> u32
    ensures value { result ≡ refusal4 profile buffer.old rows }
    ensures buffer_after { buffer.new ≡ unless_refused (refusal4 profile buffer.old rows) buffer.old
        (on_rows rows (halted profile built.now) buffer.old) }
{
    answered_number(push_halt_opcode_row(profile, buffer, rows, *built))
}

// Pass 5: HALT rows up to the height.
#[unsafe(no_mangle)]
pub extern "C" fn core_pad(profile: Profile, buffer: &mut [u64], rows: usize, height: usize) -> u32
    ensures value { result ≡ refusal5 profile buffer.old rows height }
    ensures buffer_after { buffer.new ≡ unless_refused (refusal5 profile buffer.old rows height) buffer.old
        (on_rows rows (padded profile height) buffer.old) }
{
    answered_number(pad_core_row_major(profile, buffer, rows, height))
}

// All five passes.
#[unsafe(no_mangle)]
pub extern "C" fn core_finish(
    profile: Profile,
    buffer: &mut [u64],
    fragment_size: usize,
    counts: &[u32],
    built: &[u64],
    first_stack_top: &[u64; 16],
    height: usize,
) -> u32
    ensures value { result ≡ refusal_all profile buffer.old fragment_size counts.now built.now height }
    ensures buffer_after { buffer.new ≡ unless_refused
        (refusal_all profile buffer.old fragment_size counts.now built.now height)
        buffer.old
        (all_passes profile fragment_size counts.now built.now first_stack_top.now height buffer.old) }
{
    let fragments = Fragments {
        size: fragment_size,
        counts,
        built,
    };
    answered_number(finish(profile, buffer, &fragments, *first_stack_top, height))
}

// Storings and cycles, lent as records of 32 numbers, on a fresh tracer over one fragment.
#[unsafe(no_mangle)]
pub extern "C" fn core_replay(
    nodes: &[u32],
    digests: &[u64],
    batches: &[u32],
    groups: &[u64],
    ops: &[u8],
    directory: &[u32],
    addresses: &[u64],
    parents: &[u64],
    ends: &[u64],
    profile: Profile,
    state: DecoderState,
    at: Positions,
    records: &[u64],
    fragment: &mut [u64],
) -> Replayed
    ensures value { result ≡ replayed
        (scanned profile (forest nodes.now digests.now batches.now groups.now ops.now) directory.now (queues addresses.now parents.now ends.now)
        (length fragment.old)) state at records.now }
    ensures fragment_after { fragment.new ≡ replayed_fragment
        (scanned profile (forest nodes.now digests.now batches.now groups.now ops.now) directory.now (queues addresses.now parents.now ends.now)
        (length fragment.old)) state at records.now fragment.old }
{
    let forests = LentForest {
        nodes,
        digests,
        batches: LentBatches {
            records: batches,
            groups,
        },
        ops,
    };
    let queues = LentQueues {
        addresses,
        parents,
        ends,
    };
    replay_calls(
        &forests,
        directory,
        &queues,
        profile,
        Cursor { state, at },
        records,
        fragment,
    )
}

// What reading a trace answers: 0, or the number and the row of its refusal; the number of program rows, 0 on a refusal.
#[repr(C)]
#[derive(Clone, Copy)]
pub struct TraceRead {
    pub refusal: u32,
    pub row: usize,
    pub program_rows: usize,
}

// Reads a trace: the answer, and, where it is accepted, one depth a row.
#[unsafe(no_mangle)]
pub extern "C" fn core_read_trace(profile: Profile, cells: &[u64], depths: &mut [u32]) -> TraceRead
    ensures { ReadsTrace profile cells.now depths.old (trace_values result) depths.new }
{
    match read_trace(profile, cells, depths) {
        Ok(program_rows) => TraceRead {
            refusal: 0,
            row: 0,
            program_rows,
        },
        Err(refused) => TraceRead {
            refusal: u32::from(refused.refusal),
            row: refused.row,
            program_rows: 0,
        },
    }
}

// Where a row lies among the lent cells: its first cell and how many cells it has, both 0 on a refusal.
#[repr(C)]
#[derive(Clone, Copy)]
pub struct RowBounds {
    pub start: usize,
    pub cells: usize,
}

// The place of the row's part of the lent cells, since a part cannot be handed back.
#[unsafe(no_mangle)]
pub extern "C" fn core_row(cells: &[u64], number: usize) -> RowBounds
    ensures { (result.start ≡ view_start (length cells.now) number) × (result.cells ≡ view_cells (length cells.now) number) }
{
    let part = row(cells, number);
    if part.len() == 0 {
        return RowBounds { start: 0, cells: 0 };
    }
    RowBounds {
        start: number * Row::WIDTH,
        cells: part.len(),
    }
}

// What building an index answers: 0, or the number and the row of a refusal; the number of blocks, 0 on a refusal.
#[repr(C)]
#[derive(Clone, Copy)]
pub struct IndexBuilt {
    pub refusal: u32,
    pub row: usize,
    pub blocks: usize,
}

// Builds the index of a trace: three numbers for each block.
#[unsafe(no_mangle)]
pub extern "C" fn core_build_index(profile: Profile, cells: &[u64], index: &mut [u32]) -> IndexBuilt
    ensures { BuildsIndex profile cells.now index.old (index_values result) index.new }
{
    match build_index(profile, cells, index) {
        Ok(blocks) => IndexBuilt {
            refusal: 0,
            row: 0,
            blocks,
        },
        Err(refused) => IndexBuilt {
            refusal: u32::from(refused.refusal),
            row: refused.row,
            blocks: 0,
        },
    }
}

// What a look-up in an index answers: 0 or 11, 1 where a block encloses the row, and its place; else 0.
#[repr(C)]
#[derive(Clone, Copy)]
pub struct EnclosingBlock {
    pub refusal: u32,
    pub found: u32,
    pub place: usize,
}

// The last block of an index that encloses a row.
#[tactic(auto, unfolding(crate::specs::Places::enclosing_found, crate::specs::Places::enclosing_place))]
#[unsafe(no_mangle)]
pub extern "C" fn core_enclosing_block(index: &[u32], row: usize) -> EnclosingBlock
    ensures { (result.refusal ≡ refusal (enclosing index.now row)) × (result.found ≡ enclosing_found (enclosing index.now row))
        × (result.place ≡ enclosing_place (enclosing index.now row)) }
{
    match enclosing_block(index, row) {
        Ok(Some(place)) => EnclosingBlock {
            refusal: 0,
            found: 1,
            place,
        },
        Ok(None) => EnclosingBlock {
            refusal: 0,
            found: 0,
            place: 0,
        },
        Err(refusal) => EnclosingBlock {
            refusal: u32::from(refusal),
            found: 0,
            place: 0,
        },
    }
}

// Where an operation lies in its batch: 0 or the refusal's number, its group, its index in the group, and how many operations follow it there;
// these three are 0 on a refusal.
#[repr(C)]
#[derive(Clone, Copy)]
pub struct OperationPlace {
    pub refusal: u32,
    pub group: u64,
    pub index: u64,
    pub following: u64,
}

// The place of an operation of the batch in a record, by the batch records of its forest alone. 5: the record is not whole in the slice; 6: no such
// operation in the batch, or it lies in no group; 11: the record's group count is above 8.
#[unsafe(no_mangle)]
pub extern "C" fn core_op_place(batches: &[u32], record: usize, op: u32) -> OperationPlace
    ensures { (result.refusal ≡ refusal (place_of_op batches.now «record» op))
        × (result.group ≡ (values no_place (place_of_op batches.now «record» op)).group)
        × (result.index ≡ (values no_place (place_of_op batches.now «record» op)).index)
        × (result.following ≡ (values no_place (place_of_op batches.now «record» op)).following) }
{
    match op_place(batches, record, op) {
        Ok(place) => OperationPlace {
            refusal: 0,
            group: place.group,
            index: place.index,
            following: place.following,
        },
        Err(refusal) => OperationPlace {
            refusal: u32::from(refusal),
            group: 0,
            index: 0,
            following: 0,
        },
    }
}

// What writing a dump answers: 0, or the number of a refusal; the number of bytes, 0 on a refusal.
#[repr(C)]
#[derive(Clone, Copy)]
pub struct DumpWritten {
    pub refusal: u32,
    pub bytes: usize,
}

// Writes a finished trace as a value change dump.
#[unsafe(no_mangle)]
pub extern "C" fn core_write_dump(cells: &[u64], text: &mut [u8]) -> DumpWritten
    ensures refusal_value { (result.refusal ≡ refusal (dumping cells.now (length text.old)))
        × (result.bytes ≡ values 0 (dumping cells.now (length text.old))) }
    ensures text_after { text.new ≡ text_after cells.now (dumping cells.now (length text.old)) text.old }
{
    match write_dump(cells, text) {
        Ok(bytes) => DumpWritten { refusal: 0, bytes },
        Err(refusal) => DumpWritten {
            refusal: u32::from(refusal),
            bytes: 0,
        },
    }
}

// What reading a dump answers: 0, or the number of a refusal; the number of rows, 0 on a refusal.
#[repr(C)]
#[derive(Clone, Copy)]
pub struct DumpRead {
    pub refusal: u32,
    pub rows: usize,
}

// Reads a dump back into cells.
#[unsafe(no_mangle)]
pub extern "C" fn core_read_dump(text: &[u8], cells: &mut [u64]) -> DumpRead
    ensures { ReadsDump text.now cells.old result.refusal result.rows cells.new }
{
    match read_dump(text, cells) {
        Ok(rows) => DumpRead { refusal: 0, rows },
        Err(refusal) => DumpRead {
            refusal: u32::from(refusal),
            rows: 0,
        },
    }
}
