// Lines of a dump that a text begins with, and what follows them.
ghost use Rattle.std.specs.Prelude.{◌≡◌, ◌≤◌, ◌<◌, length, MatchOption};
ghost use Rattle.field.specs.Modulus.{P};
ghost use Rattle.groups.specs.Constants.{most_rows};
ghost use Rattle.theory_dumps.specs.Dumps.{time_line, value_line};
ghost use Rattle.theory_dumps.specs.ways.Undump.{behind};
ghost use Rattle.dump.specs.ways.Scanning.{next_value, digits_in, DigitsRead, LineOf};
ghost use Rattle.dump.specs.ways.Reading.{rest_of, with_rest};

use crate::scan::{Digits, Line, digits_of, is_plain};
use field::felt::Felt;

// Behind the line of a value, which was scanned.
fn after_line(text: &[u8], line: Line) -> Option<&[u8]>
    requires line { LineOf text.now line.column line.value line.count }
    requires short { (line.count ≤ 64) × (line.value < P) }
    ensures { rest_of result ≡ behind (value_line line.column line.value) text.now }
{
    let [_, digits @ ..] = text else {
        return None;
    };
    let (digits, end) = digits.split_at(line.count);
    if !is_plain(digits) {
        return None;
    }
    match end {
        [b' ', _, b'\n', rest @ ..] => Some(rest),
        _ => None,
    }
}

// Behind the next value of a column whose line was scanned: a cell, changed, and written as the writer writes it.
pub(crate) fn after_value(text: &[u8], line: Line, old: u64) -> Option<&[u8]>
    requires { LineOf text.now line.column line.value line.count }
    ensures { with_rest line.value result ≡ next_value line.column old text.now }
{
    if 64 < line.count || Felt::MODULUS <= line.value || old == line.value {
        return None;
    }
    after_line(text, line)
}

// The decimal digits that a text begins with, where they are at most 8: no row's number has more, so no more than 9 bytes are looked at.
fn row_digits(text: &[u8]) -> Option<Digits>
    ensures { MatchOption result (8 < length (digits_in 10 text.now)) (λ digits. (digits.count ≤ 8) × DigitsRead 10 (digits_in 10 text.now) digits.count digits.value) }
{
    let looked = text.len().min(9);
    let digits = digits_of(&text[..looked], 10);
    if 8 < digits.count {
        return None;
    }
    Some(digits)
}

// Behind the time line of a row.
pub(crate) fn after_time(text: &[u8], row: usize) -> Option<&[u8]>
    requires { row ≤ most_rows }
    ensures { rest_of result ≡ behind (time_line row) text.now }
{
    let [b'#', numbered @ ..] = text else {
        return None;
    };
    let Some(digits) = row_digits(numbered) else {
        return None;
    };
    if digits.value != row as u64 {
        return None;
    }
    let (number, end) = numbered.split_at(digits.count);
    if !is_plain(number) {
        return None;
    }
    match end {
        [b'\n', rest @ ..] => Some(rest),
        _ => None,
    }
}
