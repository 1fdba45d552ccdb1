// The inverse modulo p of a number, and of each cell in a column of a buffer. Inverses of 0 to 127 are looked up, others computed; a column keeps
// those of numbers below 1,024 that it has computed.
ghost use Rattle.std.specs.Prelude.{◌≡◌, ◌<◌};
ghost use Rattle.field.specs.Modulus.{P};
ghost use Rattle.field.specs.Inverse.{inverse_of};
ghost use Rattle.field.specs.Table.{TableRule};
ghost use Rattle.field.specs.ways.KeptInverses.{KeptInverses};
ghost use Rattle.field.specs.Column.{invert_column};

use crate::felt::{Felt, reduce};
use crate::table::INVERSES;

// The inverse of a number from 1 to p - 1, by Euclid's algorithm without signs: x·s is -u and x·t is v modulo p. The loop counts no index.
#[tactic(auto, using(crate::proofs::EuclidTurns::turn_laws))]
fn euclid_inverse(x: u64) -> u64
    requires { (0 < x) × (x < P) }
    ensures { result ≡ inverse_of x }
{
    let mut u = Felt::MODULUS;
    let mut v = x;
    let mut s: u64 = 0;
    let mut t: u64 = 1;
    // By `while`: Euclid's steps, of which nothing counts.
    while v > 1 {
        s += u / v * t;
        u %= v;
        if u == 1 {
            return Felt::MODULUS - s;
        }
        t += v / u * s;
        v %= u;
    }
    t
}

// The table. A constant array is built anew where it is named, so a loop makes it once and lends it.
fn inverses() -> [u64; 128]
    ensures { TableRule result }
{
    INVERSES
}

// The inverse of any number: 0 for a multiple of p.
#[tactic(auto, using(crate::proofs::Entries::entry_law, crate::proofs::Entries::computed_law))]
pub fn inverse(x: u64) -> u64
    ensures { result ≡ inverse_of x }
{
    let y = reduce(x);
    if y < 128 {
        let table = inverses();
        return table[y as usize];
    }
    euclid_inverse(y)
}

// The inverse of any number in a column: looked up below 128; below 1,024 computed once and kept; else computed. In `kept` 0 is none, since no
// inverse of these is 0. Not as Option: that was tried, takes 16 KiB of stack for 8, where docs/CALLERS.md names a thread of 16 KiB, and more time.
#[tactic(auto, using(crate::proofs::Entries::entry_law, crate::proofs::Entries::computed_law))]
fn inverse_kept(table: &[u64; 128], kept: &mut [u64; 1024], x: u64) -> u64
    requires { TableRule table.now × KeptInverses kept.old }
    ensures value { result ≡ inverse_of x }
    ensures kept_inverses { KeptInverses kept.new }
{
    let y = reduce(x);
    if y < 128 {
        return table[y as usize];
    }
    if 1024 <= y {
        return euclid_inverse(y);
    }
    let found = kept[y as usize];
    if found != 0 {
        return found;
    }
    let made = euclid_inverse(y);
    kept[y as usize] = made;
    made
}

// Replaces by its inverse each cell in the given column of the first `rows` rows of `width` cells. Rows that the buffer does not
// hold, and a column that a row does not have, are left out.
#[tactic(auto, using(crate::proofs::Columns::column_laws, crate::proofs::KeptLaws::kept_none))]
pub fn invert_column(cells: &mut [u64], rows: usize, width: usize, column: usize)
    ensures { cells.new ≡ invert_column cells.old rows width column }
{
    if width <= column {
        return;
    }
    let table = inverses();
    let mut kept = [0; 1024];
    let held = cells.len().saturating_sub(column).div_ceil(width);
    for row in 0..rows.min(held) {
        let at = row * width + column;
        cells[at] = inverse_kept(&table, &mut kept, cells[at]);
    }
}
