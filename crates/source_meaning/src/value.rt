//! Values of expressions.

ghost use Rattle.std.specs.Prelude.{◌≡◌, ◌≤◌, length};
ghost use Rattle.mit_syntax.specs.Expression.{expression_of};
ghost use Rattle.mit_syntax.specs.Values.{value_of};
ghost use Rattle.source_meaning.specs.InRange.{IsIn};

use mit_syntax::ast::Expr;
use mit_syntax::declarations::MAX_CELLS;
use mit_syntax::values::element;

/// The value of an expression in a memory of at most `MAX_CELLS` variables, which has all that stand in it.
pub fn value(e: &Expr, memory: &[i64]) -> i64
    requires within { IsIn (length memory.now) (expression_of e.now) }
    requires few { length memory.now ≤ MAX_CELLS }
    ensures { result ≡ value_of (expression_of e.now) memory.now }
{
    match e {
        Expr::Number(n) => *n,
        Expr::Variable(x) => memory[*x as usize],
        Expr::Binary(op, left, right) => op.apply(value(left, memory), value(right, memory)),
        Expr::Element {
            first,
            length,
            index,
        } => {
            let x = element(*first, *length, value(index, memory));
            memory[x as usize]
        }
    }
}
