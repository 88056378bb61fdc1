//! The operators: their signs, and which of them bind closer.

ghost use Rattle.std.specs.Prelude.{◌≡◌};
ghost use Rattle.mit_syntax.specs.Operators.{op_sign, op_of, rank, left_need, right_need};

use crate::ast::Op;
use crate::token::Sign;

/// The sign of an operator.
pub fn op_sign(op: Op) -> Sign
    ensures { result ≡ op_sign op }
{
    match op {
        Op::Add => Sign::Plus,
        Op::Sub => Sign::Minus,
        Op::Mul => Sign::Star,
        Op::Div => Sign::Slash,
        Op::Rem => Sign::Percent,
        Op::Eq => Sign::Equal,
        Op::Ne => Sign::NotEqual,
        Op::Lt => Sign::Less,
        Op::Le => Sign::LessEqual,
        Op::Gt => Sign::Greater,
        Op::Ge => Sign::GreaterEqual,
    }
}

/// The operator that a sign is.
pub fn op_of(sign: Sign) -> Option<Op>
    ensures { result ≡ op_of sign }
{
    match sign {
        Sign::Plus => Some(Op::Add),
        Sign::Minus => Some(Op::Sub),
        Sign::Star => Some(Op::Mul),
        Sign::Slash => Some(Op::Div),
        Sign::Percent => Some(Op::Rem),
        Sign::Equal => Some(Op::Eq),
        Sign::NotEqual => Some(Op::Ne),
        Sign::Less => Some(Op::Lt),
        Sign::LessEqual => Some(Op::Le),
        Sign::Greater => Some(Op::Gt),
        Sign::GreaterEqual => Some(Op::Ge),
        _ => None,
    }
}

/// The rank of an operator: 1, 2 or 3, the greater the closer it binds. Numbers, variables and elements have rank 4.
pub fn rank(op: Op) -> u32
    ensures { result ≡ rank op }
{
    match op {
        Op::Eq | Op::Ne | Op::Lt | Op::Le | Op::Gt | Op::Ge => 1,
        Op::Add | Op::Sub => 2,
        Op::Mul | Op::Div | Op::Rem => 3,
    }
}

/// The least rank that its left part has without parentheses.
pub fn left_need(op: Op) -> u32
    ensures { result ≡ left_need op }
{
    rank(op).max(2)
}

/// The least rank that its right part has without parentheses.
pub fn right_need(op: Op) -> u32
    ensures { result ≡ right_need op }
{
    rank(op) + 1
}
