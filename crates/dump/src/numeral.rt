// Numbers as ASCII digits.
ghost use Rattle.std.specs.Prelude.{◌≡◌, ◌^◌, ◌≤◌, ◌<◌, length, drop};
ghost use Rattle.theory_dumps.specs.Numerals.{numeral_within};

// Writes the digits of a number in a base, the highest first, at the end of a slice that has room for as many as it can have, and answers
// where they begin.
pub(crate) fn put_digits(base: u64, n: u64, out: &mut [u8]) -> usize
    requires { (1 < base) × (base ≤ 10) × (0 < length out.old) × (n < base ^ length out.old) }
    ensures { (result < length out.old) × (length out.new ≡ length out.old)
        × (drop result out.new ≡ numeral_within base (length out.old) n) }
{
    let mut at = out.len();
    let mut rest = n;
    // By `while`: from the last digit on, of which nothing counts before.
    while base <= rest {
        at -= 1;
        out[at] = b'0' + (rest % base) as u8;
        rest /= base;
    }
    at -= 1;
    out[at] = b'0' + rest as u8;
    at
}
