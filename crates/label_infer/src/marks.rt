//! The labels of commands, from those of variables.

ghost use Rattle.std.specs.Prelude.{◌≡◌, ◌++◌, IfOk};
ghost use Rattle.label_lattice.specs.Order.{lattice_of};
ghost use Rattle.mit_syntax.specs.Plan.{Plan, command_plan, list_plan};
ghost use Rattle.timing_types.specs.Labelling.{label_at};
ghost use Rattle.label_infer.specs.Given.{own_pair, own_pairs};

use label_lattice::label::Label;
use label_lattice::lattice::Lattice;
use mit_syntax::ast::{Command, Form};
use std::alloc::AllocError;
use timing_types::expressions::{index_label, label};

/// The written labels, or without them the same label twice.
fn own_pair(written: &Option<(Label, Label)>, here: Label) -> (Label, Label)
    ensures { result ≡ own_pair written.now here.number }
{
    match written {
        Some(pair) => *pair,
        None => (here, here),
    }
}

/// Appends the labels of a command and of those inside it, in order of the text.
#[cycle(marks)]
fn command_pairs(
    c: &Command,
    variables: &[Label],
    order: &Lattice,
    pc: Label,
    found: &mut Vec<(Label, Label)>,
) -> Result<(), AllocError>
    ensures { IfOk result (λ _. (rest : Plan) → found.old.items ++ own_pairs (lattice_of order.now) (label_at order.now.bottom variables.now)
        (command_plan c.now rest) pc.number ≡ found.new.items ++ own_pairs (lattice_of order.now) (label_at order.now.bottom variables.now) rest pc.number) }
{
    match &c.form {
        Form::Skip => {
            found.push(own_pair(&c.labels, pc))?;
            Ok(())
        }
        Form::Assign { variable: _, value } => {
            let here = order.join(pc, index_label(value, variables, order));
            found.push(own_pair(&c.labels, here))?;
            Ok(())
        }
        Form::Put {
            first: _,
            length: _,
            index,
            value,
        } => {
            let li = order.join(
                label(index, variables, order),
                index_label(value, variables, order),
            );
            found.push(own_pair(&c.labels, order.join(pc, li)))?;
            Ok(())
        }
        Form::Sleep { time } => {
            let here = order.join(pc, index_label(time, variables, order));
            found.push(own_pair(&c.labels, here))?;
            Ok(())
        }
        Form::If {
            guard,
            then_part,
            else_part,
        } => {
            let here = order.join(pc, index_label(guard, variables, order));
            found.push(own_pair(&c.labels, here))?;
            let inner = order.join(pc, label(guard, variables, order));
            list_pairs(then_part, variables, order, inner, found)?;
            list_pairs(else_part, variables, order, inner, found)?;
            Ok(())
        }
        Form::While { guard, body } => {
            let here = order.join(pc, index_label(guard, variables, order));
            found.push(own_pair(&c.labels, here))?;
            let inner = order.join(pc, label(guard, variables, order));
            list_pairs(body, variables, order, inner, found)?;
            Ok(())
        }
        Form::Mitigate {
            mark: _,
            estimate,
            level: _,
            body,
        } => {
            let here = order.join(pc, index_label(estimate, variables, order));
            found.push(own_pair(&c.labels, here))?;
            list_pairs(body, variables, order, pc, found)?;
            Ok(())
        }
    }
}

/// Appends the labels of the commands of a list, in order of the text.
#[cycle(marks)]
pub(crate) fn list_pairs(
    commands: &[Command],
    variables: &[Label],
    order: &Lattice,
    pc: Label,
    found: &mut Vec<(Label, Label)>,
) -> Result<(), AllocError>
    ensures { IfOk result (λ _. found.new.items ≡ found.old.items ++ own_pairs (lattice_of order.now) (label_at order.now.bottom variables.now)
        (list_plan commands.now) pc.number) }
{
    for c in commands {
        command_pairs(c, variables, order, pc, found)?;
    }
    Ok(())
}
