// Lines put into a text. Where one does not fit, the place behind it is answered all the same, and nothing is said of the text.
// Text and place stay two parameters: a type that kept both would need the place's bound, which grows from call to call, in each contract too.
ghost use Rattle.std.specs.Prelude.{◌++◌, ◌^◌, ◌≤◌, ◌<◌, length};
ghost use Rattle.groups.specs.Constants.{row_width};
ghost use Rattle.theory_dumps.specs.Dumps.{time_line, value_line};
ghost use Rattle.theory_dumps.specs.Numerals.{numeral_within};
ghost use Rattle.dump.specs.ways.Putting.{Put};

use crate::numeral::put_digits;

// Puts bytes at a place and answers the place behind them.
pub(crate) fn put_bytes(text: &mut [u8], at: usize, bytes: &[u8]) -> usize
    requires { (at ≤ 4611686018427387904) × (length bytes.now ≤ 65536) }
    ensures { Put text.old at bytes.now text.new result }
{
    let end = at + bytes.len();
    if end <= text.len() {
        text[at..end].copy_from_slice(bytes);
    }
    end
}

// A line of a mark, the digits of a number, of which it has at most N, and an end.
fn put_line<const N: usize>(
    text: &mut [u8],
    at: usize,
    mark: &[u8],
    base: u64,
    number: u64,
    end: &[u8],
) -> usize
    requires place { at ≤ 2305843009213693952 }
    requires short { (length mark.now ≤ 1024) × (length end.now ≤ 1024) }
    requires digits { (1 < base) × (base ≤ 10) × (0 < N) × (N ≤ 64) × (number < base ^ N) }
    ensures { Put text.old at (mark.now ++ numeral_within base N number ++ end.now) text.new result }
{
    let mut room = [0u8; N];
    let digits = &mut room[..];
    let first = put_digits(base, number, digits);
    let from = put_bytes(text, at, mark);
    let to = put_bytes(text, from, &digits[first..]);
    put_bytes(text, to, end)
}

// The line of a value, as `b101 !`.
#[tactic(auto, unfolding(theory_dumps::specs::Dumps::value_line))]
pub(crate) fn put_value(text: &mut [u8], at: usize, column: usize, value: u64) -> usize
    requires { (at ≤ 2305843009213693952) × (column < row_width) }
    ensures { Put text.old at (value_line column value) text.new result }
{
    put_line::<64>(
        text,
        at,
        b"b",
        2,
        value,
        &[b' ', b'!' + column as u8, b'\n'],
    )
}

// The time line of a row, as `#0`.
#[tactic(auto, unfolding(theory_dumps::specs::Dumps::time_line))]
pub(crate) fn put_time(text: &mut [u8], at: usize, row: usize) -> usize
    requires { at ≤ 2305843009213693952 }
    ensures { Put text.old at (time_line row) text.new result }
{
    put_line::<20>(text, at, b"#", 10, row as u64, b"\n")
}
