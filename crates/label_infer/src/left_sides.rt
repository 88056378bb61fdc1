//! The labels of expressions and commands, before omitted labels are known.

ghost use Rattle.std.specs.Prelude.{◌≡◌, ◌<◌, IfNone, IfOk};
ghost use Rattle.label_infer.specs.LeftSideOf.{left_side_of};
ghost use Rattle.label_infer.specs.Constraints.{variable_form, label_form, own_read};
ghost use Rattle.label_infer.specs.ConstraintsOf.{lat_of, written_at, free_of, written_of, inner_of, skip_of, after_of};
ghost use Rattle.label_infer.specs.ConstraintsOf.{set_after, put_after, around_of, set_left, put_left};
ghost use Rattle.mit_syntax.specs.Expression.{expression_of};

use crate::left_side::{LeftSide, both, fixed};
use crate::place::Place;
use crate::row::MAX_NUMBERS;
use crate::variable_set::VariableSet;
use crate::written_labels::Known;
use label_lattice::label::Label;
use mit_syntax::ast::Expr;
use std::alloc::AllocError;

/// What is written of a variable; past the end of the table bottom.
pub(crate) fn written_label(x: u32, k: &Known<'_>) -> Option<Label>
    ensures value { result ≡ written_at k.now x }
    ensures small { IfNone result (x < MAX_NUMBERS) }
{
    match k.written.get(x as usize) {
        Some(written) => *written,
        None => Some(k.order.bottom()),
    }
}

/// The label of a variable.
fn variable(x: u32, k: &Known<'_>) -> LeftSide
    ensures { left_side_of result ≡ variable_form (lat_of k.now) (free_of k.now) (written_of k.now) x }
{
    match written_label(x, k) {
        Some(label) => fixed(label),
        None => LeftSide {
            base: k.order.bottom(),
            variables: VariableSet::One(Place { number: x }),
        },
    }
}

/// The join of the labels of an expression's variables and arrays, those in indices included.
pub(crate) fn label(e: &Expr, k: &Known<'_>) -> Result<LeftSide, AllocError>
    ensures { IfOk result (λ f. left_side_of f ≡ label_form (lat_of k.now) (free_of k.now) (written_of k.now) (expression_of e.now)) }
{
    match e {
        Expr::Number(_) => Ok(fixed(k.order.bottom())),
        Expr::Variable(x) => Ok(variable(*x, k)),
        Expr::Binary(_, left, right) => {
            let one = label(left, k)?;
            let other = label(right, k)?;
            both(k, &one, &other)
        }
        Expr::Element {
            first,
            length: _,
            index,
        } => {
            let inside = label(index, k)?;
            both(k, &variable(*first, k), &inside)
        }
    }
}

/// The read label that a command writes.
fn own_read(written: &Option<(Label, Label)>, k: &Known<'_>) -> LeftSide
    ensures { left_side_of result ≡ own_read (lat_of k.now) written.now }
{
    match written {
        Some(pair) => fixed(pair.0),
        None => fixed(k.order.bottom()),
    }
}

/// The label inside a guard.
pub(crate) fn inner(pc: &LeftSide, e: &Expr, k: &Known<'_>) -> Result<LeftSide, AllocError>
    ensures { IfOk result (λ f. left_side_of f ≡ inner_of k.now (left_side_of pc.now) (expression_of e.now)) }
{
    let le = label(e, k)?;
    both(k, pc, &le)
}

/// The time after a `skip`.
pub(crate) fn skip_end(
    written: &Option<(Label, Label)>,
    t: &LeftSide,
    k: &Known<'_>,
) -> Result<LeftSide, AllocError>
    ensures { IfOk result (λ f. left_side_of f ≡ skip_of k.now written.now (left_side_of t.now)) }
{
    let own = own_read(written, k);
    both(k, t, &own)
}

/// The time after a command that reads an expression.
pub(crate) fn after(
    written: &Option<(Label, Label)>,
    t: &LeftSide,
    e: &Expr,
    k: &Known<'_>,
) -> Result<LeftSide, AllocError>
    ensures { IfOk result (λ f. left_side_of f ≡ after_of k.now written.now (left_side_of t.now) (expression_of e.now)) }
{
    let le = label(e, k)?;
    let own = own_read(written, k);
    let read = both(k, &le, &own)?;
    both(k, t, &read)
}

/// The time after an assignment.
pub(crate) fn after_set(
    written: &Option<(Label, Label)>,
    t: &LeftSide,
    x: u32,
    value: &Expr,
    k: &Known<'_>,
) -> Result<LeftSide, AllocError>
    ensures { IfOk result (λ f. left_side_of f ≡ set_after k.now written.now (left_side_of t.now) x (expression_of value.now)) }
{
    let read = after(written, t, value, k)?;
    let set = variable(x, k);
    both(k, &read, &set)
}

/// The time after an assignment to an element.
pub(crate) fn after_put(
    written: &Option<(Label, Label)>,
    t: &LeftSide,
    first: u32,
    index: &Expr,
    value: &Expr,
    k: &Known<'_>,
) -> Result<LeftSide, AllocError>
    ensures { IfOk result (λ f. left_side_of f ≡ put_after k.now written.now (left_side_of t.now) first (expression_of index.now) (expression_of value.now)) }
{
    let set = after_set(written, t, first, value, k)?;
    let place = label(index, k)?;
    both(k, &set, &place)
}

/// The guards, the read label that a command writes, and the time before it.
fn around(
    written: &Option<(Label, Label)>,
    pc: &LeftSide,
    t: &LeftSide,
    k: &Known<'_>,
) -> Result<LeftSide, AllocError>
    ensures { IfOk result (λ f. left_side_of f ≡ around_of k.now written.now (left_side_of pc.now) (left_side_of t.now)) }
{
    let own = own_read(written, k);
    let time = both(k, &own, t)?;
    both(k, pc, &time)
}

/// The left side of an assignment's first condition.
pub(crate) fn set_left(
    written: &Option<(Label, Label)>,
    pc: &LeftSide,
    t: &LeftSide,
    value: &Expr,
    k: &Known<'_>,
) -> Result<LeftSide, AllocError>
    ensures { IfOk result (λ f. left_side_of f ≡ set_left k.now written.now (left_side_of pc.now) (left_side_of t.now) (expression_of value.now)) }
{
    let le = label(value, k)?;
    let rest = around(written, pc, t, k)?;
    both(k, &le, &rest)
}

/// The same of an assignment to an element: all of the index counts.
pub(crate) fn put_left(
    written: &Option<(Label, Label)>,
    pc: &LeftSide,
    t: &LeftSide,
    index: &Expr,
    value: &Expr,
    k: &Known<'_>,
) -> Result<LeftSide, AllocError>
    ensures { IfOk result (λ f. left_side_of f ≡ put_left k.now written.now (left_side_of pc.now) (left_side_of t.now) (expression_of index.now)
        (expression_of value.now)) }
{
    let le = label(value, k)?;
    let indices = label(index, k)?;
    let rest = around(written, pc, t, k)?;
    let indexed = both(k, &indices, &rest)?;
    both(k, &le, &indexed)
}
