//! Which costs of operators are asked about.

ghost use Rattle.std.specs.Prelude.{◌≡◌};
ghost use Rattle.steady_code.specs.Steady.{costs_same as same_cost, is_levelled as levelled};
ghost use Rattle.steady_code.specs.Costing.{is_named as names, settled_by};

use crate::bound::is_small;
use crate::tag::Tag;
use mit_syntax::ast::Op;

/// Operators that are taken to cost the same whatever their operands are. `compare` is all six comparisons.
#[derive(Clone, Copy, Debug, PartialEq, Eq)]
pub struct Constant {
    pub add: bool,
    pub subtract: bool,
    pub multiply: bool,
    pub divide: bool,
    pub remainder: bool,
    pub compare: bool,
}

/// Which costs of operators are asked about.
#[derive(Clone, Copy, Debug, PartialEq, Eq)]
pub enum Costing {
    /// Those of the machine's table.
    Table,
    /// Any that are the same whatever the operands are, for these operators. Others may cost by their operands.
    Only(Constant),
}

/// Whether two values are equal or equally short, as far as is known.
fn is_levelled(tag: Tag) -> bool
    ensures { result ≡ levelled tag }
{
    tag.same || is_small(tag.bound)
}

/// Whether an operator costs the same in both runs by the machine's table, as far as is known of its operands.
fn costs_same(op: Op, left: Tag, right: Tag) -> bool
    ensures { result ≡ same_cost op left right }
{
    match op {
        Op::Mul => is_levelled(left) && is_levelled(right),
        _ => true,
    }
}

/// Whether an operator is named as one of constant cost.
fn is_named(constant: Constant, op: Op) -> bool
    ensures { result ≡ names constant op }
{
    match op {
        Op::Add => constant.add,
        Op::Sub => constant.subtract,
        Op::Mul => constant.multiply,
        Op::Div => constant.divide,
        Op::Rem => constant.remainder,
        Op::Eq | Op::Ne | Op::Lt | Op::Le | Op::Gt | Op::Ge => constant.compare,
    }
}

/// Whether enough is known of an operator's operands: two runs then pay the same for it, by any of these costs.
pub(crate) fn is_settled(costing: Costing, op: Op, left: Tag, right: Tag) -> bool
    ensures { result ≡ settled_by costing op left right }
{
    match costing {
        Costing::Table => costs_same(op, left, right),
        Costing::Only(constant) => is_named(constant, op) || (left.same && right.same),
    }
}
