// The helper registers of an operation: what a cycle captures of it, and the six cells h2 to h7 that its row shows.
ghost use Rattle.std.specs.Prelude.{◌≡◌};
ghost use Rattle.groups.specs.Helpers.{all_below, helpers_answer};
ghost use Rattle.groups.specs.Refusals.{told};
ghost use Rattle.groups.specs.ways.Families.{family_of, read_family, found_of};

use crate::refusal::Refusal;
use crate::word::{QuadFelt, Word};
use field::felt::{Felt, reduce, sub};
use field::inverse::inverse;

// What a cycle captures of its operation. Numbers are read modulo p.
#[derive(Clone, Copy)]
pub enum OperationHelperRegisters {
    // EQ: the second and the first stack element before it.
    Eq {
        stack_second: u64,
        stack_first: u64,
    },
    // U32SPLIT: the low and the high 32 bits of the top element.
    U32Split {
        lo: u64,
        hi: u64,
    },
    // EQZ: the top element before it.
    Eqz {
        top: u64,
    },
    // EXPACC: what the accumulator is multiplied by.
    Expacc {
        acc_update_val: u64,
    },
    // FRI_EXT2FOLD4: alpha / x, its square, the domain point x, and the inverse of x.
    FriExt2Fold4 {
        ev: QuadFelt,
        es: QuadFelt,
        x: u64,
        x_inv: u64,
    },
    // U32ADD: the low and the high 32 bits of a + b.
    U32Add {
        sum: u64,
        carry: u64,
    },
    // U32ADD3: the low and the high 32 bits of a + b + c.
    U32Add3 {
        sum: u64,
        carry: u64,
    },
    // U32SUB: the difference, which stands second afterwards.
    U32Sub {
        second_new: u64,
    },
    // U32MUL: the low and the high 32 bits of a * b.
    U32Mul {
        lo: u64,
        hi: u64,
    },
    // U32MADD: the low and the high 32 bits of a * b + c.
    U32Madd {
        lo: u64,
        hi: u64,
    },
    // U32DIV: quotient, remainder, and divisor - remainder - 1.
    U32Div {
        quotient: u64,
        remainder: u64,
        remainder_diff: u64,
    },
    // U32ASSERT2: the first and the second stack element.
    U32Assert2 {
        first: u64,
        second: u64,
    },
    // HPERM: the hasher's address of the permutation.
    HPerm {
        addr: u64,
    },
    // MPVERIFY and MRUPDATE: the hasher's address of the path.
    MerklePath {
        addr: u64,
    },
    // HORNER_EVAL_BASE: the evaluation point, and the results of levels 1 and 2.
    HornerEvalBase {
        alpha: QuadFelt,
        tmp0: QuadFelt,
        tmp1: QuadFelt,
    },
    // HORNER_EVAL_EXT: the evaluation point, and the accumulator half way.
    HornerEvalExt {
        alpha: QuadFelt,
        acc_tmp: QuadFelt,
    },
    // LOG_DEFERRED: the hasher's address of the permutation, and the deferred root before it.
    LogDeferred {
        addr: u64,
        state_prev: Word,
    },
    // Every other operation.
    Empty,
}

// The cells h2 to h7 of an operation's row.
#[derive(Clone, Copy)]
pub struct UserOpHelpers {
    pub h2: u64,
    pub h3: u64,
    pub h4: u64,
    pub h5: u64,
    pub h6: u64,
    pub h7: u64,
}

// The ways in which helpers are made.
#[derive(Clone, Copy)]
enum Family {
    // Cells as they stand.
    Cells(u64, u64, u64, u64, u64, u64),
    // The inverse of first - second.
    Inverse(u64, u64),
    // Three values of 32 bits, each by its low and its high 16 bits.
    Limbs(u64, u64, u64),
    // Two such values, low and high, and the inverse of 2^32 - 1 - high.
    LimbsAndInverse(u64, u64),
}

// One cell, and zeros.
fn single(a: u64) -> Family
    ensures { result ≡ Family.Cells a 0 0 0 0 0 }
{
    Family::Cells(
        a,
        Felt::ZERO,
        Felt::ZERO,
        Felt::ZERO,
        Felt::ZERO,
        Felt::ZERO,
    )
}

// Three elements of the extension as six cells.
fn pairs(a: QuadFelt, b: QuadFelt, c: QuadFelt) -> Family
    ensures { result ≡ Family.Cells a.0 a.1 b.0 b.1 c.0 c.1 }
{
    Family::Cells(a.0, a.1, b.0, b.1, c.0, c.1)
}

// An address and a word as five cells.
fn addressed(addr: u64, w: Word) -> Family
    ensures { result ≡ Family.Cells addr w.0 w.1 w.2 w.3 0 }
{
    Family::Cells(addr, w.0, w.1, w.2, w.3, Felt::ZERO)
}

// Whether the numbers are all below the limit.
fn all_below(limit: u64, numbers: &[u64]) -> bool
    ensures { result ≡ all_below limit numbers.now }
{
    numbers.iter().all(|x| *x < limit)
}

// The helpers of three values of 32 bits, or 9.
#[tactic(auto, unfolding(crate::specs::Helpers::all_below, crate::specs::ways::Families::found_of))]
fn limbs(a: u64, b: u64, c: u64) -> Result<UserOpHelpers, Refusal>
    ensures { told result ≡ found_of (Family.Limbs a b c) }
{
    if !all_below(0x1_0000_0000, &[a, b, c]) {
        return Err(Refusal::BigHelperValue);
    }
    Ok(UserOpHelpers {
        h2: a % 65536,
        h3: a / 65536,
        h4: b % 65536,
        h5: b / 65536,
        h6: c % 65536,
        h7: c / 65536,
    })
}

// The helpers of two values of 32 bits and the inverse, or 9.
#[tactic(auto, unfolding(crate::specs::Helpers::all_below, crate::specs::ways::Families::found_of))]
fn limbs_and_inverse(lo: u64, hi: u64) -> Result<UserOpHelpers, Refusal>
    ensures { told result ≡ found_of (Family.LimbsAndInverse lo hi) }
{
    if !all_below(0x1_0000_0000, &[lo, hi]) {
        return Err(Refusal::BigHelperValue);
    }
    let flag = inverse(sub(0xffff_ffff, hi));
    Ok(UserOpHelpers {
        h2: lo % 65536,
        h3: lo / 65536,
        h4: hi % 65536,
        h5: hi / 65536,
        h6: flag,
        h7: Felt::ZERO,
    })
}

impl Family {
    // Each of its numbers read modulo p.
    fn read(self) -> Self
        ensures { result ≡ read_family self }
    {
        match self {
            Self::Cells(a, b, c, d, e, f) => Self::Cells(
                reduce(a),
                reduce(b),
                reduce(c),
                reduce(d),
                reduce(e),
                reduce(f),
            ),
            Self::Inverse(first, second) => Self::Inverse(reduce(first), reduce(second)),
            Self::Limbs(a, b, c) => Self::Limbs(reduce(a), reduce(b), reduce(c)),
            Self::LimbsAndInverse(lo, hi) => Self::LimbsAndInverse(reduce(lo), reduce(hi)),
        }
    }

    // Its helpers, or 9.
    #[tactic(auto, unfolding(crate::specs::ways::Families::found_of))]
    fn helpers(self) -> Result<UserOpHelpers, Refusal>
        ensures { told result ≡ found_of self }
    {
        match self {
            Self::Cells(h2, h3, h4, h5, h6, h7) => Ok(UserOpHelpers {
                h2,
                h3,
                h4,
                h5,
                h6,
                h7,
            }),
            Self::Inverse(first, second) => Ok(UserOpHelpers {
                h2: inverse(sub(first, second)),
                h3: Felt::ZERO,
                h4: Felt::ZERO,
                h5: Felt::ZERO,
                h6: Felt::ZERO,
                h7: Felt::ZERO,
            }),
            Self::Limbs(a, b, c) => limbs(a, b, c),
            Self::LimbsAndInverse(lo, hi) => limbs_and_inverse(lo, hi),
        }
    }
}

impl OperationHelperRegisters {
    // The register set by the way in which its helpers are made.
    fn family(self) -> Family
        ensures { result ≡ family_of self }
    {
        match self {
            Self::Eq {
                stack_second,
                stack_first,
            } => Family::Inverse(stack_first, stack_second),
            Self::U32Split { lo, hi } => Family::LimbsAndInverse(lo, hi),
            Self::Eqz { top } => Family::Inverse(top, Felt::ZERO),
            Self::Expacc { acc_update_val } => single(acc_update_val),
            Self::FriExt2Fold4 { ev, es, x, x_inv } => pairs(ev, es, QuadFelt(x, x_inv)),
            Self::U32Add { sum, carry } => Family::Limbs(sum, carry, Felt::ZERO),
            Self::U32Add3 { sum, carry } => Family::Limbs(sum, carry, Felt::ZERO),
            Self::U32Sub { second_new } => Family::Limbs(second_new, Felt::ZERO, Felt::ZERO),
            Self::U32Mul { lo, hi } => Family::LimbsAndInverse(lo, hi),
            Self::U32Madd { lo, hi } => Family::LimbsAndInverse(lo, hi),
            Self::U32Div {
                quotient,
                remainder,
                remainder_diff,
            } => Family::Limbs(quotient, remainder, remainder_diff),
            Self::U32Assert2 { first, second } => Family::Limbs(second, first, Felt::ZERO),
            Self::HPerm { addr } => single(addr),
            Self::MerklePath { addr } => single(addr),
            Self::HornerEvalBase { alpha, tmp0, tmp1 } => pairs(alpha, tmp1, tmp0),
            Self::HornerEvalExt { alpha, acc_tmp } => pairs(
                alpha,
                QuadFelt(Felt::ZERO, Felt::ZERO),
                acc_tmp,
            ),
            Self::LogDeferred { addr, state_prev } => addressed(addr, state_prev),
            Self::Empty => single(Felt::ZERO),
        }
    }

    // The cells h2 to h7, its numbers read modulo p, or 9 for a 32-bit value from 2^32 on.
    #[tactic(auto, using(crate::proofs::FamilyLaws::helpers_law))]
    pub fn to_user_op_helpers(self) -> Result<UserOpHelpers, Refusal>
        ensures { told result ≡ helpers_answer self }
    {
        self.family().read().helpers()
    }
}
