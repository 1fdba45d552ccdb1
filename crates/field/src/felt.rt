// Numbers modulo p = 2^64 - 2^32 + 1. Every public function takes any u64, reads it modulo p, and answers a number below p.
ghost use Rattle.std.specs.Prelude.{◌≡◌, ◌+◌, ◌*◌, ◌-◌, ◌%◌, ◌^◌, ◌<◌};
ghost use Rattle.field.specs.Modulus.{P};

// A field element. Cells are lent as plain numbers, so the type serves for its constants, which document 01 has belong to it.
#[derive(Clone, Copy)]
pub struct Felt(pub u64);

impl Felt {
    pub const MODULUS: u64 = 18446744069414584321;

    pub const ZERO: u64 = 0;

    pub const ONE: u64 = 1;
}

// The number below p that x is modulo p.
pub fn reduce(x: u64) -> u64
    ensures { result ≡ x % P }
{
    if x < Felt::MODULUS {
        x
    } else {
        x - Felt::MODULUS
    }
}

// The sum.
pub fn add(a: u64, b: u64) -> u64
    ensures { result ≡ (a + b) % P }
{
    let x = reduce(a);
    let y = reduce(b);
    let room = Felt::MODULUS - y;
    if x < room { x + y } else { x - room }
}

// The difference.
pub fn sub(a: u64, b: u64) -> u64
    ensures { result ≡ (a + (P - b % P)) % P }
{
    let x = reduce(a);
    let y = reduce(b);
    if x < y {
        Felt::MODULUS - (y - x)
    } else {
        x - y
    }
}

// Any a less a b below 2^32: a number that is a - b modulo p, and may be p or above.
fn less(a: u64, b: u64) -> u64
    requires { b < 2 ^ 32 }
    ensures { result % P ≡ (a + (P - b)) % P }
{
    if a < b {
        Felt::MODULUS - (b - a)
    } else {
        a - b
    }
}

// Any a and a b of at most (2^32 - 1)^2: their sum is below p after one subtraction.
fn more(a: u64, b: u64) -> u64
    requires { b < 18446744065119617026 }
    ensures { result ≡ (a + b) % P }
{
    let room = Felt::MODULUS - b;
    if a < room { a + b } else { a - room }
}

// A number of 128 bits modulo p: 2^64 is 2^32 - 1 modulo p, and 2^96 is -1.
fn fold(x: u128) -> u64
    ensures { result ≡ x % P }
{
    let lo = (x & u128::from(u64::MAX)) as u64;
    let hi = (x >> 64) as u64;
    let hh = hi / 0x1_0000_0000;
    let hl = hi % 0x1_0000_0000;
    more(less(lo, hh), hl * 0xffff_ffff)
}

// The product.
pub fn mul(a: u64, b: u64) -> u64
    ensures { result ≡ (a * b) % P }
{
    fold(u128::from(a) * u128::from(b))
}
