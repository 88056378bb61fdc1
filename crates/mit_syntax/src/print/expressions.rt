//! The canonical text of an expression.

ghost use Rattle.std.specs.Prelude.{◌≡◌, OnOk};
ghost use Rattle.mit_syntax.specs.Expression.{expression_of};
ghost use Rattle.mit_syntax.specs.Layout.{Puts, expression_part, in_square};
ghost use Rattle.mit_syntax.specs.Valid.{IsKnown, AreShaped};

use crate::ast::Expr;
use crate::declarations::Variables;
use crate::operators::{left_need, op_sign, rank, right_need};
use crate::print::chunks::{put_name, put_number, put_sign, put_spaced};
use crate::token::Sign;
use std::alloc::AllocError;

/// Puts an expression where at least this rank is needed.
pub fn put_expression(
    out: &mut Vec<u8>,
    variables: &Variables,
    e: &Expr,
    need: u32,
) -> Result<(), AllocError>
    requires known { IsKnown variables.now (expression_of e.now) }
    requires arrays { AreShaped variables.now }
    ensures { OnOk result (Puts out.old.items out.new.items (expression_part variables.now need (expression_of e.now))) }
{
    match e {
        Expr::Number(n) => put_number(out, *n),
        Expr::Variable(x) => put_name(out, variables.name(*x)),
        Expr::Binary(op, left, right) => {
            if rank(*op) < need {
                put_sign(out, Sign::LeftRound)?;
                put_expression(out, variables, left, left_need(*op))?;
                put_spaced(out, op_sign(*op))?;
                put_expression(out, variables, right, right_need(*op))?;
                put_sign(out, Sign::RightRound)?;
                Ok(())
            } else {
                put_expression(out, variables, left, left_need(*op))?;
                put_spaced(out, op_sign(*op))?;
                put_expression(out, variables, right, right_need(*op))?;
                Ok(())
            }
        }
        Expr::Element {
            first,
            length: _,
            index,
        } => {
            put_name(out, variables.name(*first))?;
            put_sign(out, Sign::LeftSquare)?;
            put_expression(out, variables, index, 1)?;
            put_sign(out, Sign::RightSquare)?;
            Ok(())
        }
    }
}

/// Puts an index in its brackets.
pub fn put_index(out: &mut Vec<u8>, variables: &Variables, index: &Expr) -> Result<(), AllocError>
    requires known { IsKnown variables.now (expression_of index.now) }
    requires arrays { AreShaped variables.now }
    ensures { OnOk result (Puts out.old.items out.new.items (in_square (expression_part variables.now 1 (expression_of index.now)))) }
{
    put_sign(out, Sign::LeftSquare)?;
    put_expression(out, variables, index, 1)?;
    put_sign(out, Sign::RightSquare)?;
    Ok(())
}
