// The last two finishing passes: the HALT row behind the program's rows, and HALT rows up to the height.
ghost use Rattle.std.specs.Prelude.{◌≡◌, [], ◌∷◌, ◌+◌, ◌*◌, ◌≤◌, ◌<◌, length, take};
ghost use Rattle.groups.specs.Answer.{refusal};
ghost use Rattle.groups.specs.Constants.{row_width};
ghost use Rattle.groups.specs.Refusals.{told};
ghost use Rattle.rows.specs.records.DecoderRows.{zero_word, control_flow};
ghost use Rattle.rows.specs.records.Built.{system_cells, stack_cells};
ghost use Rattle.rows.specs.records.Buffers.{rows_of, on_rows, last_row};
ghost use Rattle.rows.specs.passes.Passes.{word_from, first_half, halt_stack, halted, padded, refusal4, refusal5, unless_refused};

use crate::records::buffer::{buffer_wrong, fewer_rows};
use crate::records::decoder_row::DecoderRow;
use crate::records::profile::{Profile, is_wrong};
use crate::records::row::write_row;
use crate::records::state::{StackCols, SystemCols};
use field::felt::Felt;
use field::inverse::inverse;
use groups::constants::Row;
use groups::refusal::Refusal;
use groups::word::Word;

// The four numbers from `at` on, as they stand.
// No `word_at`, which reads modulo p: `built` may hold any numbers.
fn word_in(cells: &[u64], at: usize) -> Word
    requires { at + 4 ≤ length cells.now }
    ensures { result ≡ word_from cells.now at }
{
    Word(cells[at], cells[at + 1], cells[at + 2], cells[at + 3])
}

// The first six cells as a row's system cells.
#[tactic(auto, using(crate::proofs::records::Windows::read_take), unfolding(crate::specs::records::Built::system_cells))]
fn system_of(cells: &[u64]) -> SystemCols
    requires { 6 ≤ length cells.now }
    ensures { system_cells result ≡ take 6 cells.now }
{
    SystemCols {
        clk: cells[0],
        ctx: cells[1],
        fn_hash: word_in(cells, 2),
    }
}

// The first nineteen cells as a row's stack cells.
fn stack_of(cells: &[u64]) -> StackCols
    requires { 19 ≤ length cells.now }
    ensures { stack_cells result ≡ take 19 cells.now }
{
    let mut top = [0; 16];
    top.copy_from_slice(&cells[..16]);
    StackCols {
        top,
        b0: cells[16],
        b1: cells[17],
        h0: cells[18],
    }
}

// The stack cells of the HALT row: those of the 25 built cells, the helper inverted.
fn halt_stack(built: &[u64]) -> StackCols
    requires { 25 ≤ length built.now }
    ensures { stack_cells result ≡ halt_stack built.now }
{
    let stack = stack_of(&built[6..]);
    let h0 = inverse(stack.h0);
    StackCols { h0, ..stack }
}

// h0 to h3 of the last of the first `rows` rows, 0 where there is none.
#[tactic(auto, using(crate::proofs::passes::HaltRows::last_half), unfolding(crate::specs::records::Buffers::last_row, crate::specs::records::Buffers::rows_of))]
fn last_half(buffer: &[u64], rows: usize) -> Word
    requires { row_width * rows ≤ length buffer.now }
    ensures { result ≡ first_half (last_row (rows_of rows buffer.now)) }
{
    if rows == 0 {
        return Word(Felt::ZERO, Felt::ZERO, Felt::ZERO, Felt::ZERO);
    }
    word_in(buffer, Row::WIDTH * rows - 35)
}

// The decoder part of a HALT row behind the first `rows` rows.
fn halt_decoder(profile: Profile, buffer: &[u64], rows: usize) -> DecoderRow
    requires { row_width * rows ≤ length buffer.now }
    ensures { result ≡ control_flow profile.halt (first_half (last_row (rows_of rows buffer.now))) zero_word 0 }
{
    let first = last_half(buffer, rows);
    let second = Word(Felt::ZERO, Felt::ZERO, Felt::ZERO, Felt::ZERO);
    DecoderRow::new_control_flow(profile.halt, first, second, Felt::ZERO)
}

// What pass 4 refuses.
#[tactic(auto, using(crate::proofs::passes::Refusals::fewer_more), unfolding(crate::specs::passes::Passes::refusal4, groups::specs::Answer::first_of))]
fn check_halt(profile: Profile, buffer: &[u64], rows: usize) -> Result<(), Refusal>
    ensures { refusal (told result) ≡ refusal4 profile buffer.now rows }
{
    if is_wrong(profile) {
        return Err(Refusal::BadProfile);
    }
    if buffer_wrong(buffer.len()) | (buffer.len() / Row::WIDTH <= rows) {
        return Err(Refusal::BadLength);
    }
    Ok(())
}

// Pass 4 where nothing is refused.
pub(crate) fn push_halt(profile: Profile, buffer: &mut [u64], rows: usize, built: &[u64])
    requires { (row_width * rows + row_width ≤ length buffer.old) × (25 ≤ length built.now) }
    ensures { buffer.new ≡ on_rows rows (halted profile built.now) buffer.old }
{
    let decoder = halt_decoder(profile, buffer, rows);
    let system = system_of(built);
    let stack = halt_stack(built);
    write_row(buffer, rows, system, decoder, stack);
}

// Writes the HALT row behind the first `rows` rows, or refuses and changes nothing.
#[tactic(auto, using(crate::proofs::passes::Refusals::fits4))]
pub fn push_halt_opcode_row(
    profile: Profile,
    buffer: &mut [u64],
    rows: usize,
    built: [u64; 25],
) -> Result<(), Refusal>
    ensures value { refusal (told result) ≡ refusal4 profile buffer.old rows }
    ensures buffer_after { buffer.new ≡ unless_refused (refusal4 profile buffer.old rows) buffer.old
        (on_rows rows (halted profile built) buffer.old) }
{
    check_halt(profile, buffer, rows)?;
    push_halt(profile, buffer, rows, &built);
    Ok(())
}

// What pass 5 refuses.
#[tactic(auto, unfolding(crate::specs::passes::Passes::refusal5, groups::specs::Answer::first_of))]
fn check_padding(
    profile: Profile,
    buffer: &[u64],
    rows: usize,
    height: usize,
) -> Result<(), Refusal>
    ensures { refusal (told result) ≡ refusal5 profile buffer.now rows height }
{
    if is_wrong(profile) {
        return Err(Refusal::BadProfile);
    }
    if buffer_wrong(buffer.len())
        | ((rows == 0) | ((height < rows) | fewer_rows(buffer.len(), height)))
    {
        return Err(Refusal::BadLength);
    }
    Ok(())
}

// The system cells of a padding row: clk is its number.
#[tactic(auto, unfolding(crate::specs::records::Built::system_cells))]
fn padding_system(row: usize) -> SystemCols
    ensures { system_cells result ≡ row ∷ 0 ∷ 0 ∷ 0 ∷ 0 ∷ 0 ∷ [] }
{
    SystemCols {
        clk: row as u64,
        ctx: Felt::ZERO,
        fn_hash: Word(Felt::ZERO, Felt::ZERO, Felt::ZERO, Felt::ZERO),
    }
}

// Pass 5 where nothing is refused.
pub(crate) fn pad(profile: Profile, buffer: &mut [u64], rows: usize, height: usize)
    requires { (0 < rows) × (rows ≤ height) × (row_width * height ≤ length buffer.old) }
    ensures { buffer.new ≡ on_rows rows (padded profile height) buffer.old }
{
    let decoder = halt_decoder(profile, buffer, rows);
    let at = Row::WIDTH * rows - 19;
    let stack = stack_of(&buffer[at..]);
    for row in rows..height {
        write_row(buffer, row, padding_system(row), decoder, stack);
    }
}

// Writes HALT rows from row `rows` to the height, or refuses and changes nothing.
#[tactic(auto, using(crate::proofs::passes::Refusals::fits5))]
pub fn pad_core_row_major(
    profile: Profile,
    buffer: &mut [u64],
    rows: usize,
    height: usize,
) -> Result<(), Refusal>
    ensures value { refusal (told result) ≡ refusal5 profile buffer.old rows height }
    ensures buffer_after { buffer.new ≡ unless_refused (refusal5 profile buffer.old rows height) buffer.old
        (on_rows rows (padded profile height) buffer.old) }
{
    check_padding(profile, buffer, rows, height)?;
    pad(profile, buffer, rows, height);
    Ok(())
}
