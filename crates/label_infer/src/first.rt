//! The labels before the first step.

ghost use Rattle.std.specs.Prelude.{◌≡◌, ◌++◌, ◌<◌, ◌≤◌, ℕ, length, map, slice_index_or, Option, IfOk};
ghost use Rattle.mit_syntax.specs.Declarations.{variables, cell_at};
ghost use Rattle.mit_syntax.specs.Plan.{Plan, command_plan, list_plan};
ghost use Rattle.label_lattice.specs.declared.label.Label.{Label as Written};
ghost use Rattle.label_infer.specs.First.{first_of, first_levels};

use crate::row::MAX_NUMBERS;
use crate::variables::Variables;
use crate::written_labels::Known;
use label_lattice::label::Label;
use mit_syntax::ast::{Command, Form};
use mit_syntax::program::Program;
use std::alloc::{AllocError, Global};

/// The label of each variable where one is written.
pub(crate) fn written_labels(alloc: Global, p: &Program) -> Result<Vec<Option<Label>>, AllocError>
    ensures fit { IfOk result (λ v. length v.items ≡ variables p.now.declarations) }
    ensures labels { IfOk result (λ v. (x : ℕ) (d : Option Written) → x < variables p.now.declarations
        → slice_index_or v.items x d ≡ (cell_at p.now.declarations x).label) }
    ensures few { IfOk result (λ v. length v.items ≤ MAX_NUMBERS) }
{
    let mut found = Vec::new(alloc);
    for x in 0..p.variables() {
        found.push(p.variable_label(x))?;
    }
    Ok(found)
}

/// The written label, or bottom.
fn first_label(written: Option<Label>, bottom: Label) -> Label
    ensures { result ≡ first_of bottom.number written }
{
    match written {
        Some(label) => label,
        None => bottom,
    }
}

/// The written label of each variable, or bottom.
pub(crate) fn first_variables(alloc: Global, k: &Known<'_>) -> Result<Variables, AllocError>
    ensures { IfOk result (λ v. v ≡ map (first_of k.now.order.now.bottom) k.now.written.items) }
{
    let mut found = Variables::new(alloc)?;
    for written in &k.written {
        found.push(first_label(*written, k.order.bottom()))?;
    }
    Ok(found)
}

/// Appends the levels of the mitigates in a command, in order of the text: the written ones, or bottom.
#[cycle(levels)]
fn command_levels(c: &Command, bottom: Label, found: &mut Vec<Label>) -> Result<(), AllocError>
    ensures { IfOk result (λ _. (rest : Plan) → found.old.items ++ first_levels bottom.number (command_plan c.now rest)
        ≡ found.new.items ++ first_levels bottom.number rest) }
{
    match &c.form {
        Form::Skip | Form::Assign { .. } | Form::Put { .. } | Form::Sleep { .. } => Ok(()),
        Form::If {
            guard: _,
            then_part,
            else_part,
        } => {
            list_levels(then_part, bottom, found)?;
            list_levels(else_part, bottom, found)?;
            Ok(())
        }
        Form::While { guard: _, body } => {
            list_levels(body, bottom, found)?;
            Ok(())
        }
        Form::Mitigate {
            mark: _,
            estimate: _,
            level,
            body,
        } => {
            found.push(first_label(*level, bottom))?;
            list_levels(body, bottom, found)?;
            Ok(())
        }
    }
}

/// Appends the levels of the mitigates in a list, in order of the text: the written ones, or bottom.
#[cycle(levels)]
pub(crate) fn list_levels(
    commands: &[Command],
    bottom: Label,
    found: &mut Vec<Label>,
) -> Result<(), AllocError>
    ensures { IfOk result (λ _. found.new.items ≡ found.old.items ++ first_levels bottom.number (list_plan commands.now)) }
{
    for c in commands {
        command_levels(c, bottom, found)?;
    }
    Ok(())
}
