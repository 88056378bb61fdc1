ghost use Rattle.std.specs.Prelude.{◌≡◌, ◌≤◌};
ghost use Rattle.label_code.specs.Costs.{is_short as short, op_cost as cost_of_op};

use mit_syntax::ast::Op;

/// Whether a number fits into 16 bits.
fn is_short(n: i64) -> bool
    ensures { result ≡ short n }
{
    (-32768..=32767).contains(&n)
}

/// An operator's cycles beyond its 1: a product takes 1 if both operands are at least -32768 and at most
/// 32767, and 4 else; a quotient and a remainder take 16; the others none.
pub fn op_cost(op: Op, left: i64, right: i64) -> u32
    ensures value { result ≡ cost_of_op op left right }
    ensures small { result ≤ 16 }
{
    match op {
        Op::Mul if is_short(left) && is_short(right) => 1,
        Op::Mul => 4,
        Op::Div | Op::Rem => 16,
        _ => 0,
    }
}
