// What a row is to the grammar.
ghost use Rattle.std.specs.Prelude.{◌≡◌, ◌∷◌, ◌/◌, ◌<◌, length, drop};
ghost use Rattle.groups.specs.Constants.{row_width};
ghost use Rattle.rows.specs.records.Buffers.{opcode_of};
ghost use Rattle.theory_readings.specs.Tokens.{nothing, controls, token_beside, control_token, in_span_of, op_bits_of, all_bits};
ghost use Rattle.theory_readings.specs.Readings.{row_at, all_rows};
ghost use Rattle.reader.specs.Rows.{row_kind_of, token_at, op_kind};

use field::cell::cell;
use groups::constants::{Column, Row};
use rows::records::buffer::decode_opcode;
use rows::records::profile::Profile;

// The start of a Block (One: of a kind with one child), an op, the other control rows, or a row that fits nothing.
#[derive(Clone, Copy)]
pub enum RowKind {
    Span,
    Join,
    One,
    Loop,
    Op,
    Respan,
    Repeat,
    End,
    Halt,
    Nothing,
}

// The control row of an opcode, of the last six of the profile's other than PUSH.
#[tactic(auto, unfolding(theory_readings::specs::Tokens::controls, crate::specs::Rows::row_kind_of, theory_readings::specs::Tokens::token_beside))]
fn later_control(profile: Profile, opcode: u8) -> RowKind
    ensures { result ≡ row_kind_of (token_beside opcode (drop 6 (controls profile)) nothing) }
{
    if opcode == profile.call {
        return RowKind::One;
    }
    if opcode == profile.syscall {
        return RowKind::One;
    }
    if opcode == profile.dyn_op {
        return RowKind::One;
    }
    if opcode == profile.dyncall {
        return RowKind::One;
    }
    if opcode == profile.end {
        return RowKind::End;
    }
    if opcode == profile.halt {
        return RowKind::Halt;
    }
    RowKind::Nothing
}

// The control row of an opcode.
#[tactic(auto, unfolding(theory_readings::specs::Tokens::control_token, theory_readings::specs::Tokens::controls, crate::specs::Rows::row_kind_of, theory_readings::specs::Tokens::token_beside))]
pub(crate) fn control(profile: Profile, opcode: u8) -> RowKind
    ensures { result ≡ row_kind_of (control_token profile opcode) }
{
    if opcode == profile.span {
        return RowKind::Span;
    }
    if opcode == profile.respan {
        return RowKind::Respan;
    }
    if opcode == profile.join {
        return RowKind::Join;
    }
    if opcode == profile.split {
        return RowKind::One;
    }
    if opcode == profile.loop_op {
        return RowKind::Loop;
    }
    if opcode == profile.repeat {
        return RowKind::Repeat;
    }
    later_control(profile, opcode)
}

// An op, where its opcode is no control row's.
#[tactic(auto, unfolding(crate::specs::Rows::op_kind))]
pub(crate) fn op(control: RowKind) -> RowKind
    ensures { result ≡ op_kind control }
{
    match control {
        RowKind::Nothing => RowKind::Op,
        RowKind::Span
        | RowKind::Join
        | RowKind::One
        | RowKind::Loop
        | RowKind::Op
        | RowKind::Respan
        | RowKind::Repeat
        | RowKind::End
        | RowKind::Halt => RowKind::Nothing,
    }
}

// Whether in_span and the op bits of a row are 0 or 1.
fn are_bits(cells: &[u64], row: usize) -> bool
    requires { row < length cells.now / row_width }
    ensures { result ≡ all_bits (in_span_of (row_at (all_rows cells.now) row) ∷ op_bits_of (row_at (all_rows cells.now) row)) }
{
    let at = Row::WIDTH * row;
    (cell(cells, at + Column::IN_SPAN) < 2)
        & ((cell(cells, at + 7) < 2)
            & ((cell(cells, at + 8) < 2)
                & ((cell(cells, at + 9) < 2)
                    & ((cell(cells, at + 10) < 2)
                        & ((cell(cells, at + 11) < 2)
                            & ((cell(cells, at + 12) < 2) & (cell(cells, at + 13) < 2)))))))
}

// The opcode that the op bits of a row spell.
fn opcode(cells: &[u64], row: usize) -> u8
    requires { row < length cells.now / row_width }
    ensures { result ≡ opcode_of (row_at (all_rows cells.now) row) }
{
    decode_opcode(cells, row) as u8
}

// What a row is; past the end, nothing.
pub fn row_kind(profile: Profile, cells: &[u64], row: usize) -> RowKind
    ensures { result ≡ row_kind_of (token_at profile cells.now row) }
{
    if cells.len() / Row::WIDTH <= row {
        return RowKind::Nothing;
    }
    if are_bits(cells, row) {
        let kind = control(profile, opcode(cells, row));
        if cell(cells, Row::WIDTH * row + Column::IN_SPAN) == 0 {
            return kind;
        }
        return op(kind);
    }
    RowKind::Nothing
}
