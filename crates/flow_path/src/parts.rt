//! The first of the cheapest parts of the left sides of a command's conditions, and of the time after it.

ghost use Rattle.std.specs.Prelude.{◌++◌, ◌∷◌, [], List};
ghost use Rattle.mit_syntax.specs.Expression.{expression_of};
ghost use Rattle.flow_path.specs.declared.step.Part.{Part as APart};
ghost use Rattle.flow_path.specs.declared.step.How.TheVariants.{Reads as WhenReads, ReadsInIndex as WhenIndex, HasReadLabel as WhenLabel};
ghost use Rattle.flow_path.specs.declared.step.How.TheVariants.{UnderGuard as WhenGuard, AfterReadLabel as WhenAfter};
ghost use Rattle.flow_path.specs.Steps.{reads, index_reads, read_label, after, after_set, after_put};
ghost use Rattle.flow_path.specs.Distances.{IsKnownIn, IsBestIn};

use crate::best::{Best, better, single};
use crate::known_costs::Round;
use crate::step::{How, Part, Spot};
use label_lattice::label::Label;
use mit_syntax::ast::Expr;
use text_base::pos::Pos;

/// Of the variables and arrays of an expression.
pub(crate) fn reads(e: &Expr, how: How, pos: Pos, round: &Round) -> Option<Best>
    requires { IsKnownIn round.now }
    ensures { IsBestIn round.now (reads how pos (expression_of e.now)) result }
{
    match e {
        Expr::Number(_) => None,
        Expr::Variable(x) => single(
            Part {
                how,
                pos,
                spot: Spot::Variable(*x),
            },
            round,
        ),
        Expr::Binary(_, left, right) => {
            let a = reads(left, how, pos, round);
            let b = reads(right, how, pos, round);
            better(a, b)
        }
        Expr::Element {
            first,
            length: _,
            index,
        } => {
            let part = Part {
                how,
                pos,
                spot: Spot::Variable(*first),
            };
            let a = single(part, round);
            let b = reads(index, how, pos, round);
            better(a, b)
        }
    }
}

/// Of those that stand in an index.
pub(crate) fn index_reads(e: &Expr, pos: Pos, round: &Round) -> Option<Best>
    requires { IsKnownIn round.now }
    ensures { IsBestIn round.now (index_reads pos (expression_of e.now)) result }
{
    match e {
        Expr::Number(_) | Expr::Variable(_) => None,
        Expr::Binary(_, left, right) => {
            let a = index_reads(left, pos, round);
            let b = index_reads(right, pos, round);
            better(a, b)
        }
        Expr::Element {
            first: _,
            length: _,
            index,
        } => reads(index, How::ReadsInIndex, pos, round),
    }
}

/// Of the read label that a command writes.
pub(crate) fn read_label(
    labels: &Option<(Label, Label)>,
    how: How,
    pos: Pos,
    round: &Round,
) -> Option<Best>
    requires { IsKnownIn round.now }
    ensures { IsBestIn round.now (read_label how pos labels.now) result }
{
    match labels {
        None => None,
        Some(pair) => single(
            Part {
                how,
                pos,
                spot: Spot::Command(pair.0),
            },
            round,
        ),
    }
}

/// Of the time after a `skip`.
pub(crate) fn after_skip(
    t: Option<Best>,
    pos: Pos,
    labels: &Option<(Label, Label)>,
    round: &Round,
) -> Option<Best>
    requires { IsKnownIn round.now }
    ensures { (T : List APart) → IsBestIn round.now T t → IsBestIn round.now (T ++ read_label WhenAfter pos labels.now) result }
{
    let label = read_label(labels, How::AfterReadLabel, pos, round);
    better(t, label)
}

/// Of the time after a command that reads an expression in this way.
fn after_by(
    t: Option<Best>,
    how: How,
    pos: Pos,
    labels: &Option<(Label, Label)>,
    e: &Expr,
    round: &Round,
) -> Option<Best>
    requires { IsKnownIn round.now }
    ensures { (T : List APart) → IsBestIn round.now T t
        → IsBestIn round.now (T ++ (reads how pos (expression_of e.now) ++ read_label WhenAfter pos labels.now)) result }
{
    let read = reads(e, how, pos, round);
    let label = read_label(labels, How::AfterReadLabel, pos, round);
    let own = better(read, label);
    better(t, own)
}

/// Of the time after a `sleep`, a guard or an estimate.
pub(crate) fn after(
    t: Option<Best>,
    pos: Pos,
    labels: &Option<(Label, Label)>,
    e: &Expr,
    round: &Round,
) -> Option<Best>
    requires { IsKnownIn round.now }
    ensures { (T : List APart) → IsBestIn round.now T t
        → IsBestIn round.now (after T (record { pos = pos; labels = labels.now }) (expression_of e.now)) result }
{
    after_by(t, How::AfterReading, pos, labels, e, round)
}

/// Of the time after an assignment to a variable.
pub(crate) fn after_set(
    t: Option<Best>,
    pos: Pos,
    labels: &Option<(Label, Label)>,
    x: u32,
    e: &Expr,
    round: &Round,
) -> Option<Best>
    requires { IsKnownIn round.now }
    ensures { (T : List APart) → IsBestIn round.now T t
        → IsBestIn round.now (after_set T (record { pos = pos; labels = labels.now }) x (expression_of e.now)) result }
{
    let read = after_by(t, How::AfterComputing, pos, labels, e, round);
    let part = Part {
        how: How::AfterAssigning,
        pos,
        spot: Spot::Variable(x),
    };
    let set = single(part, round);
    better(read, set)
}

/// Of the time after an assignment to an element.
pub(crate) fn after_put(
    t: Option<Best>,
    pos: Pos,
    labels: &Option<(Label, Label)>,
    first: u32,
    index: &Expr,
    e: &Expr,
    round: &Round,
) -> Option<Best>
    requires { IsKnownIn round.now }
    ensures { (T : List APart) → IsBestIn round.now T t
        → IsBestIn round.now (after_put T (record { pos = pos; labels = labels.now }) first (expression_of index.now) (expression_of e.now)) result }
{
    let set = after_set(t, pos, labels, first, e, round);
    let read = reads(index, How::AfterComputing, pos, round);
    better(set, read)
}

/// Of the guards around the parts of a command.
pub(crate) fn inside(pc: Option<Best>, pos: Pos, guard: &Expr, round: &Round) -> Option<Best>
    requires { IsKnownIn round.now }
    ensures { (P : List APart) → IsBestIn round.now P pc → IsBestIn round.now (P ++ reads WhenGuard pos (expression_of guard.now)) result }
{
    let read = reads(guard, How::UnderGuard, pos, round);
    better(pc, read)
}

/// Of the left side of the condition on a write label.
pub(crate) fn here(pc: Option<Best>, pos: Pos, e: &Expr, round: &Round) -> Option<Best>
    requires { IsKnownIn round.now }
    ensures { (P : List APart) → IsBestIn round.now P pc → IsBestIn round.now (P ++ index_reads pos (expression_of e.now)) result }
{
    let read = index_reads(e, pos, round);
    better(pc, read)
}

/// The same of an assignment to an element.
pub(crate) fn put_here(
    pc: Option<Best>,
    pos: Pos,
    index: &Expr,
    e: &Expr,
    round: &Round,
) -> Option<Best>
    requires { IsKnownIn round.now }
    ensures { (P : List APart) → IsBestIn round.now P pc
        → IsBestIn round.now (P ++ (reads WhenIndex pos (expression_of index.now) ++ index_reads pos (expression_of e.now))) result }
{
    let place = reads(index, How::ReadsInIndex, pos, round);
    let read = index_reads(e, pos, round);
    let own = better(place, read);
    better(pc, own)
}

/// Of the guards, the read label that a command writes, and the time before it.
fn around(
    pc: Option<Best>,
    t: Option<Best>,
    pos: Pos,
    labels: &Option<(Label, Label)>,
    round: &Round,
) -> Option<Best>
    requires { IsKnownIn round.now }
    ensures { (P T : List APart) → IsBestIn round.now P pc → IsBestIn round.now T t
        → IsBestIn round.now (P ++ (read_label WhenLabel pos labels.now ++ T)) result }
{
    let label = read_label(labels, How::HasReadLabel, pos, round);
    let time = better(label, t);
    better(pc, time)
}

/// Of the left side of an assignment's first condition.
pub(crate) fn set_left(
    pc: Option<Best>,
    t: Option<Best>,
    pos: Pos,
    labels: &Option<(Label, Label)>,
    e: &Expr,
    round: &Round,
) -> Option<Best>
    requires { IsKnownIn round.now }
    ensures { (P T : List APart) → IsBestIn round.now P pc → IsBestIn round.now T t
        → IsBestIn round.now (reads WhenReads pos (expression_of e.now) ++ (P ++ (read_label WhenLabel pos labels.now ++ T))) result }
{
    let read = reads(e, How::Reads, pos, round);
    let rest = around(pc, t, pos, labels, round);
    better(read, rest)
}

/// The same of an assignment to an element.
pub(crate) fn put_left(
    pc: Option<Best>,
    t: Option<Best>,
    pos: Pos,
    labels: &Option<(Label, Label)>,
    index: &Expr,
    e: &Expr,
    round: &Round,
) -> Option<Best>
    requires { IsKnownIn round.now }
    ensures { (P T : List APart) → IsBestIn round.now P pc → IsBestIn round.now T t
        → IsBestIn round.now (reads WhenReads pos (expression_of e.now)
        ++ (reads WhenIndex pos (expression_of index.now) ++ (P ++ (read_label WhenLabel pos labels.now ++ T)))) result }
{
    let read = reads(e, How::Reads, pos, round);
    let place = reads(index, How::ReadsInIndex, pos, round);
    let rest = around(pc, t, pos, labels, round);
    let indexed = better(place, rest);
    better(read, indexed)
}
