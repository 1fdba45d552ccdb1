// How a text begins.
ghost use Rattle.std.specs.Prelude.{◌≡◌, ◌≤◌, ◌<◌, MatchOption};
ghost use Rattle.groups.specs.Constants.{row_width};
ghost use Rattle.theory_dumps.specs.ways.Spelled.{plain};
ghost use Rattle.dump.specs.ways.Scanning.{digits_in, DigitsRead, LineFrom, NoLineFrom};

use field::cell::item_or;
use groups::constants::Row;

// The digits that a text begins with: how many, and the number that they spell, where 64 bits hold as many digits.
#[derive(Clone, Copy)]
pub(crate) struct Digits {
    pub(crate) count: usize,
    pub(crate) value: u64,
}

// The digits in a base.
pub(crate) fn digits_of(text: &[u8], base: u64) -> Digits
    requires { (1 < base) × (base ≤ 10) }
    ensures { DigitsRead base (digits_in base text.now) result.count result.value }
{
    let mut value: u64 = 0;
    for (count, byte) in text.iter().enumerate() {
        // past the base where the byte is none of its digits
        let digit = u64::from(byte.wrapping_sub(b'0'));
        if base <= digit {
            return Digits { count, value };
        }
        value = value.wrapping_mul(base).wrapping_add(digit);
    }
    Digits {
        count: text.len(),
        value,
    }
}

// Whether digits are written without leading zeros.
pub(crate) fn is_plain(digits: &[u8]) -> bool
    ensures { result ≡ plain digits.now }
{
    match digits {
        [] => false,
        [_] => true,
        [first, ..] => *first != b'0',
    }
}

// A line like `b101 !`: the column of its identifier, its value, where 64 bits hold it, and how many digits it has.
#[derive(Clone, Copy)]
pub(crate) struct Line {
    pub(crate) column: usize,
    pub(crate) value: u64,
    pub(crate) count: usize,
}

// The line that a text begins with, where it is one of the columns from `first` on.
pub(crate) fn line_from(text: &[u8], first: usize) -> Option<Line>
    requires { first ≤ row_width }
    ensures { MatchOption result (NoLineFrom text.now first) (λ line. LineFrom text.now first line.column line.value line.count) }
{
    // behind the last column no line is looked for
    if first == Row::WIDTH {
        return None;
    }
    let [b'b', behind @ ..] = text else {
        return None;
    };
    let digits = digits_of(behind, 2);
    let identifier = usize::from(item_or(behind, digits.count + 1, 0));
    let column = identifier.checked_sub(usize::from(b'!'))?;
    if column < first || Row::WIDTH <= column {
        return None;
    }
    Some(Line {
        column,
        value: digits.value,
        count: digits.count,
    })
}
