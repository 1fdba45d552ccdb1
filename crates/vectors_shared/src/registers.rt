// Helper registers by numbers: 0 to 17 for the cases in their order. Document 03's records number them from 1, and their reader reads values
// modulo p; here the values stand as listed.
use crate::numbers::Numbers;
use groups::helpers::OperationHelperRegisters;
use groups::word::{QuadFelt, Word};

// The cases that have one or two cells; every other number is the case that has none.
fn few_cells(case: u64, a: u64, b: u64) -> OperationHelperRegisters {
    match case {
        0 => OperationHelperRegisters::Eq {
            stack_second: a,
            stack_first: b,
        },
        1 => OperationHelperRegisters::U32Split { lo: a, hi: b },
        2 => OperationHelperRegisters::Eqz { top: a },
        3 => OperationHelperRegisters::Expacc { acc_update_val: a },
        5 => OperationHelperRegisters::U32Add { sum: a, carry: b },
        6 => OperationHelperRegisters::U32Add3 { sum: a, carry: b },
        7 => OperationHelperRegisters::U32Sub { second_new: a },
        8 => OperationHelperRegisters::U32Mul { lo: a, hi: b },
        9 => OperationHelperRegisters::U32Madd { lo: a, hi: b },
        11 => OperationHelperRegisters::U32Assert2 {
            first: a,
            second: b,
        },
        12 => OperationHelperRegisters::HPerm { addr: a },
        13 => OperationHelperRegisters::MerklePath { addr: a },
        _ => OperationHelperRegisters::Empty,
    }
}

// The cases that have more, then the others.
fn registers_of(case: u64, cells: [u64; 6]) -> OperationHelperRegisters {
    let [a, b, c, d, e, f] = cells;
    match case {
        4 => OperationHelperRegisters::FriExt2Fold4 {
            ev: QuadFelt(a, b),
            es: QuadFelt(c, d),
            x: e,
            x_inv: f,
        },
        10 => OperationHelperRegisters::U32Div {
            quotient: a,
            remainder: b,
            remainder_diff: c,
        },
        14 => OperationHelperRegisters::HornerEvalBase {
            alpha: QuadFelt(a, b),
            tmp0: QuadFelt(c, d),
            tmp1: QuadFelt(e, f),
        },
        15 => OperationHelperRegisters::HornerEvalExt {
            alpha: QuadFelt(a, b),
            acc_tmp: QuadFelt(c, d),
        },
        16 => OperationHelperRegisters::LogDeferred {
            addr: a,
            state_prev: Word(b, c, d, e),
        },
        _ => few_cells(case, a, b),
    }
}

// The case, and six numbers of which it takes the first ones.
impl From<Numbers<'_>> for OperationHelperRegisters {
    fn from(list: Numbers<'_>) -> Self {
        registers_of(list.number(0), list.behind(1).array())
    }
}
