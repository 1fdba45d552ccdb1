// The list of the field layer: four numbers a vector, the kind (0 reduce, 1 add, 2 sub, 3 mul, 4 inverse), a, b and the result.
use field::felt;
use field::inverse::inverse;
use vectors_shared::numbers::Numbers;

// The result of a kind of operation. An enum of the five kinds would be made of the number here and matched here: no plainer.
fn result(kind: u64, a: u64, b: u64) -> u64 {
    match kind {
        0 => felt::reduce(a),
        1 => felt::add(a, b),
        2 => felt::sub(a, b),
        3 => felt::mul(a, b),
        _ => inverse(a),
    }
}

pub fn is_right(list: Numbers<'_>) -> bool {
    result(list.number(0), list.number(1), list.number(2)) == list.number(3)
}
