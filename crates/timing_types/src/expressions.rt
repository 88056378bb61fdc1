//! The labels of expressions, from a table of those of variables.

ghost use Rattle.std.specs.Prelude.{◌≡◌};
ghost use Rattle.label_lattice.specs.Order.{lattice_of};
ghost use Rattle.mit_syntax.specs.Expression.{expression_of};
ghost use Rattle.timing_types.specs.Typing.{label_of, index_label};
ghost use Rattle.timing_types.specs.Labelling.{label_at};

use label_lattice::label::Label;
use label_lattice::lattice::Lattice;
use mit_syntax::ast::Expr;

/// The label of a variable; past the end of the table it is bottom.
pub fn variable_label(variables: &[Label], x: u32, order: &Lattice) -> Label
    ensures { result.number ≡ label_at order.now.bottom variables.now x }
{
    match variables.get(x as usize) {
        Some(label) => *label,
        None => order.bottom(),
    }
}

/// The join of the labels of an expression's variables and arrays, those in indices included.
pub fn label(e: &Expr, variables: &[Label], order: &Lattice) -> Label
    ensures { result.number ≡ label_of (lattice_of order.now) (label_at order.now.bottom variables.now) (expression_of e.now) }
{
    match e {
        Expr::Number(_) => order.bottom(),
        Expr::Variable(x) => variable_label(variables, *x, order),
        Expr::Binary(_, left, right) => order.join(
            label(left, variables, order),
            label(right, variables, order),
        ),
        Expr::Element {
            first,
            length: _,
            index,
        } => order.join(
            variable_label(variables, *first, order),
            label(index, variables, order),
        ),
    }
}

/// The join of the labels of the variables and arrays that stand in an index of an expression.
pub fn index_label(e: &Expr, variables: &[Label], order: &Lattice) -> Label
    ensures { result.number ≡ index_label (lattice_of order.now) (label_at order.now.bottom variables.now) (expression_of e.now) }
{
    match e {
        Expr::Number(_) | Expr::Variable(_) => order.bottom(),
        Expr::Binary(_, left, right) => order.join(
            index_label(left, variables, order),
            index_label(right, variables, order),
        ),
        Expr::Element {
            first: _,
            length: _,
            index,
        } => label(index, variables, order),
    }
}
