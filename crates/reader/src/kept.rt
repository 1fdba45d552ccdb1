// The kind of a row by a table, and kinds that are kept in a list, one number a row: UNKNOWN and more where none is known.
ghost use Rattle.std.specs.Prelude.{◌≡◌};
ghost use Rattle.reader.specs.Rows.{row_kind_of, token_at};
ghost use Rattle.reader.specs.KeptKinds.{kind_numbered, kind_of_code, KindTable, TellsKind, KeptKinds};
ghost use Rattle.reader.specs.ways.TellsKinds.{TellsByTable, KeepsNothing, TellsKept};

use crate::token::{RowKind, control, op, row_kind};
use groups::constants::{Column, Row};
use rows::records::profile::Profile;

// The number that tells no kind. Kinds are kept as bytes, since the list that `validate_keeping` is lent has bytes.
pub(crate) const UNKNOWN: u8 = 10;

// The most rows for which a table takes longer to make than it spares, as measured.
pub(crate) const FEW_ROWS: usize = 6;

// The rows that the smaller list keeps, and the larger.
pub const SHORT_LIST: usize = 4096;

pub const LONG_LIST: usize = 65536;

// A trace that is read: the profile, the lent cells, and a table of the profile.
#[derive(Clone, Copy)]
pub struct LentTrace<'a> {
    pub profile: Profile,
    pub cells: &'a [u64],
    pub table: &'a [u8; 256],
}

// The number of a kind.
#[tactic(auto, unfolding(crate::specs::KeptKinds::kind_numbered))]
fn kind_number(kind: RowKind) -> u8
    ensures { kind_numbered result ≡ kind }
{
    match kind {
        RowKind::Span => 0,
        RowKind::Join => 1,
        RowKind::One => 2,
        RowKind::Loop => 3,
        RowKind::Op => 4,
        RowKind::Respan => 5,
        RowKind::Repeat => 6,
        RowKind::End => 7,
        RowKind::Halt => 8,
        RowKind::Nothing => 9,
    }
}

// The kind of a number.
#[tactic(auto, unfolding(crate::specs::KeptKinds::kind_numbered))]
fn kind_numbered(number: u8) -> RowKind
    ensures { result ≡ kind_numbered number }
{
    match number {
        0 => RowKind::Span,
        1 => RowKind::Join,
        2 => RowKind::One,
        3 => RowKind::Loop,
        4 => RowKind::Op,
        5 => RowKind::Respan,
        6 => RowKind::Repeat,
        7 => RowKind::End,
        8 => RowKind::Halt,
        _ => RowKind::Nothing,
    }
}

// The kind of a row by its opcode, with 128 more where in_span is 1.
#[tactic(auto, unfolding(crate::specs::KeptKinds::kind_of_code))]
fn kind_of_code(profile: Profile, code: u8) -> RowKind
    ensures { result ≡ kind_of_code profile code }
{
    if code < 128 {
        return control(profile, code);
    }
    op(control(profile, code - 128))
}

// The table of a profile.
fn table_of(profile: Profile) -> [u8; 256]
    ensures { KindTable profile result }
{
    let mut table = [UNKNOWN; 256];
    for code in 0..256 {
        let kind = kind_of_code(profile, code as u8);
        table[code] = kind_number(kind);
    }
    table
}

// The table of a profile for so many rows; where they are few, one that tells nothing.
pub(crate) fn table_for(profile: Profile, rows: usize) -> [u8; 256]
    ensures { KindTable profile result }
{
    if rows <= FEW_ROWS {
        return [UNKNOWN; 256];
    }
    table_of(profile)
}

// The number of a row's kind by the table, where in_span and the op bits are 0 or 1 as they stand; else, and past the end, UNKNOWN.
fn number_by(cells: &[u64], row: usize, table: &[u8; 256]) -> u8
    ensures { TellsByTable table.now cells.now row result }
{
    if cells.len() / Row::WIDTH <= row {
        return UNKNOWN;
    }
    let at = Row::WIDTH * row;
    let a = cells[at + 7];
    let b = cells[at + 8];
    let c = cells[at + 9];
    let d = cells[at + 10];
    let e = cells[at + 11];
    let f = cells[at + 12];
    let g = cells[at + 13];
    let h = cells[at + Column::IN_SPAN];
    if (a < 2) & ((b < 2) & ((c < 2) & ((d < 2) & ((e < 2) & ((f < 2) & ((g < 2) & (h < 2))))))) {
        let code = a + 2 * b + 4 * c + 8 * d + 16 * e + 32 * f + 64 * g + 128 * h;
        return table[code as usize];
    }
    UNKNOWN
}

// What a row is, by a number that tells it or nothing.
// `kept_kind` ends as this does and does not call it: with the call, reading took 18 % more instructions at 2^14 rows.
fn kind_told(lent: &LentTrace<'_>, row: usize, number: u8) -> RowKind
    ensures { TellsKind lent.now.profile lent.now.cells.now row number
        → result ≡ row_kind_of (token_at lent.now.profile lent.now.cells.now row) }
{
    if number < UNKNOWN {
        return kind_numbered(number);
    }
    row_kind(lent.profile, lent.cells, row)
}

// Keeps nothing.
pub(crate) fn forget(kinds: &mut [u8])
    ensures { KeepsNothing kinds.new }
{
    kinds.fill(UNKNOWN);
}

// What a row is, which is kept; past the end, nothing.
pub(crate) fn note_kind(lent: &LentTrace<'_>, row: usize, kinds: &mut [u8]) -> RowKind
    requires { KeptKinds lent.now.profile lent.now.cells.now lent.now.table.now kinds.old }
    ensures value { result ≡ row_kind_of (token_at lent.now.profile lent.now.cells.now row) }
    ensures kept_kinds { KeptKinds lent.now.profile lent.now.cells.now lent.now.table.now kinds.new }
{
    let number = number_by(lent.cells, row, lent.table);
    if row < kinds.len() {
        kinds[row] = number;
    }
    kind_told(lent, row, number)
}

// The number of a row's kind, as it is kept if it is, else by the table.
fn kept_number(cells: &[u64], row: usize, table: &[u8; 256], kinds: &[u8]) -> u8
    ensures { TellsKept table.now kinds.now cells.now row result }
{
    if row < kinds.len() {
        let kept = kinds[row];
        if kept < UNKNOWN {
            return kept;
        }
    }
    number_by(cells, row, table)
}

// What a row is, as it is kept if it is; past the end, nothing.
pub fn kept_kind(lent: &LentTrace<'_>, row: usize, kinds: &[u8]) -> RowKind
    ensures { KeptKinds lent.now.profile lent.now.cells.now lent.now.table.now kinds.now
        → result ≡ row_kind_of (token_at lent.now.profile lent.now.cells.now row) }
{
    let number = kept_number(lent.cells, row, lent.table, kinds);
    if UNKNOWN <= number {
        return row_kind(lent.profile, lent.cells, row);
    }
    kind_numbered(number)
}
