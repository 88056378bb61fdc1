//! Copies of expressions.

ghost use Rattle.std.specs.Prelude.{◌≡◌, IfOk};
ghost use Rattle.mit_syntax.specs.Expression.{expression_of};

use mit_syntax::ast::Expr;
use std::alloc::{AllocError, Global};

/// A copy of an expression.
///
/// # Errors
/// `AllocError` where memory runs out.
pub fn copy(alloc: Global, e: &Expr) -> Result<Expr, AllocError>
    ensures { IfOk result (λ r. expression_of r ≡ expression_of e.now) }
{
    match e {
        Expr::Number(n) => Ok(Expr::Number(*n)),
        Expr::Variable(x) => Ok(Expr::Variable(*x)),
        Expr::Binary(op, left, right) => {
            let left = copy(alloc, left)?;
            let right = copy(alloc, right)?;
            Ok(Expr::Binary(*op, Box::new(alloc, left)?, Box::new(alloc, right)?))
        }
        Expr::Element {
            first,
            length,
            index,
        } => {
            let index = copy(alloc, index)?;
            Ok(Expr::Element {
                first: *first,
                length: *length,
                index: Box::new(alloc, index)?,
            })
        }
    }
}
