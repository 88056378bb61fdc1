//! What operators and indices of arrays give.

ghost use Rattle.std.specs.Prelude.{◌≡◌, ◌<◌, ◌≤◌, ◌+◌, ◌^◌};
ghost use Rattle.mit_syntax.specs.Values.{apply as value_of_op, element as element_of};

use crate::ast::Op;

impl Op {
    /// The operator's result. Sums, differences and products wrap. A quotient is truncated towards zero and
    /// is 0 where the divisor is; a remainder has the dividend's sign and is the dividend where the divisor is
    /// 0. A comparison gives 1 or 0.
    pub fn apply(self, left: i64, right: i64) -> i64
        ensures { result ≡ value_of_op self left right }
    {
        match self {
            Op::Add => left.wrapping_add(right),
            Op::Sub => left.wrapping_sub(right),
            Op::Mul => left.wrapping_mul(right),
            Op::Div if right == 0 => 0,
            Op::Div => left.wrapping_div(right),
            Op::Rem if right == 0 => left,
            Op::Rem => left.wrapping_rem(right),
            Op::Eq => i64::from(left == right),
            Op::Ne => i64::from(left != right),
            Op::Lt => i64::from(left < right),
            Op::Le => i64::from(left <= right),
            Op::Gt => i64::from(left > right),
            Op::Ge => i64::from(left >= right),
        }
    }
}

/// The variable that an index chooses, of an array with this first element and this length: the place is the
/// number below the length that differs from the index by a multiple of the length.
pub fn element(first: u32, length: u32, index: i64) -> u32
    requires some { 0 < length }
    requires room { first + length ≤ 2 ^ 32 }
    ensures value { result ≡ element_of first length index }
    ensures within { result < first + length }
    ensures from { first ≤ result }
{
    let place = index.rem_euclid(i64::from(length));
    first + place as u32
}
