// One row of 49 cells, written into a buffer.
ghost use Rattle.std.specs.Prelude.{◌≡◌, ◌++◌};
ghost use Rattle.rows.specs.records.DecoderRows.{extra0, extra1, decoder_cells};
ghost use Rattle.field.specs.Cells.{reduced};
ghost use Rattle.rows.specs.records.Built.{system_cells, stack_cells};
ghost use Rattle.rows.specs.records.Cells.{row_cells, put_in, copied_in, row_written};
ghost use Rattle.rows.specs.records.Cells.{fragment_wrong};

use crate::records::buffer::{buffer_wrong, fewer_rows};
use crate::records::decoder_row::DecoderRow;
use crate::records::state::{StackCols, SystemCols};
use field::felt::{Felt, reduce};
use groups::constants::{Column, Row};
use groups::word::read_word;

// Copies all of `src`, read modulo p, into `dst` from index `at` on; where it does not fit, nothing is changed.
#[tactic(auto, unfolding(crate::specs::records::Cells::copied_in))]
pub fn copy_in(dst: &mut [u64], at: usize, src: &[u64])
    ensures { dst.new ≡ copied_in dst.old at src.now }
{
    if dst.len() < src.len() {
        return;
    }
    if dst.len() - src.len() < at {
        return;
    }
    for j in 0..src.len() {
        dst[at + j] = reduce(src[j]);
    }
}

// Copies all of `src` into `dst` from index `at` on; where it does not fit, nothing is changed.
#[tactic(auto, unfolding(crate::specs::records::Cells::put_in))]
fn put_in(dst: &mut [u64], at: usize, src: &[u64])
    ensures { dst.new ≡ put_in dst.old at src.now }
{
    if dst.len() < src.len() {
        return;
    }
    if dst.len() - src.len() < at {
        return;
    }
    let end = at + src.len();
    dst[at..end].copy_from_slice(src);
}

fn extra_0(op: u64) -> u64
    ensures { result ≡ extra0 op }
{
    (op / 64 % 2) * (Felt::ONE - op / 32 % 2) * (op / 16 % 2)
}

fn extra_1(op: u64) -> u64
    ensures { result ≡ extra1 op }
{
    (op / 64 % 2) * (op / 32 % 2)
}

// The system and decoder cells of a row, reduced. The op bits are reduced by themselves.
#[tactic(auto, unfolding(crate::specs::records::Built::system_cells, crate::specs::records::DecoderRows::decoder_cells))]
pub(crate) fn first_cells(system: SystemCols, d: DecoderRow) -> [u64; 30]
    ensures { result ≡ reduced (system_cells system ++ decoder_cells d) }
{
    let op = u64::from(d.opcode);
    let s = system.read();
    let h = read_word(d.hasher_state_first_word);
    let g = read_word(d.hasher_state_second_word);
    [
        s.clk,
        s.ctx,
        s.fn_hash.0,
        s.fn_hash.1,
        s.fn_hash.2,
        s.fn_hash.3,
        reduce(d.addr),
        op % 2,
        op / 2 % 2,
        op / 4 % 2,
        op / 8 % 2,
        op / 16 % 2,
        op / 32 % 2,
        op / 64 % 2,
        h.0,
        h.1,
        h.2,
        h.3,
        g.0,
        g.1,
        g.2,
        g.3,
        reduce(d.in_basic_block),
        reduce(d.group_count),
        reduce(d.op_index),
        reduce(d.op_batch_flags.0),
        reduce(d.op_batch_flags.1),
        reduce(d.op_batch_flags.2),
        reduce(extra_0(op)),
        reduce(extra_1(op)),
    ]
}

// The stack cells of a row, reduced.
#[tactic(auto, unfolding(crate::specs::records::Built::stack_cells))]
fn last_cells(stack: StackCols) -> [u64; 19]
    ensures { result ≡ reduced (stack_cells stack) }
{
    let k = stack.read();
    let t = k.top;
    [
        t[0], t[1], t[2], t[3], t[4], t[5], t[6], t[7], t[8], t[9], t[10], t[11], t[12], t[13],
        t[14], t[15], k.b0, k.b1, k.h0,
    ]
}

// Writes the cells of row `row` in two parts; where the buffer has no such row, nothing is changed.
#[tactic(auto, unfolding(crate::specs::records::Cells::row_written))]
pub(crate) fn put_cells(buffer: &mut [u64], row: usize, first: [u64; 30], last: [u64; 19])
    ensures { buffer.new ≡ row_written buffer.old row (first ++ last) }
{
    if buffer.len() / Row::WIDTH <= row {
        return;
    }
    put_in(buffer, Row::WIDTH * row, &first);
    put_in(buffer, Row::WIDTH * row + Column::STACK, &last);
}

// Writes row `row`: 6 system cells, 24 decoder cells, 19 stack cells; where the buffer has no such row, nothing is changed.
#[tactic(auto, unfolding(crate::specs::records::Cells::row_written, crate::specs::records::Cells::row_cells))]
pub fn write_row(
    buffer: &mut [u64],
    row: usize,
    system: SystemCols,
    d: DecoderRow,
    stack: StackCols,
)
    ensures { buffer.new ≡ row_written buffer.old row (row_cells system d stack) }
{
    put_cells(buffer, row, first_cells(system, d), last_cells(stack));
}

// Refusal 11 of the fragment.
#[tactic(auto, unfolding(crate::specs::records::Cells::fragment_wrong, crate::specs::records::Buffers::buffer_wrong, crate::specs::records::Buffers::fewer_rows))]
pub fn fragment_wrong(cells: usize, rows: usize) -> bool
    ensures { result ≡ fragment_wrong cells rows }
{
    buffer_wrong(cells) | fewer_rows(cells, rows)
}
