//! The program-counter label of each mitigate.

ghost use Rattle.std.specs.Prelude.{◌≡◌, ◌++◌, OnOk, IfOk};
ghost use Rattle.mit_syntax.specs.Plan.{Plan, command_plan, list_plan};
ghost use Rattle.timing_types.specs.Labelling.{contexts_of};

use crate::ends::label;
use crate::labels::Labels;
use label_lattice::label::Label;
use label_lattice::lattice::Lattice;
use mit_syntax::ast::{Command, Form};
use std::alloc::AllocError;

/// Appends the program-counter labels of the mitigates in a command, in order of the text.
#[cycle(contexts)]
fn command_contexts(
    c: &Command,
    p: &Labels,
    order: &Lattice,
    pc: Label,
    found: &mut Vec<Label>,
) -> Result<(), AllocError>
    ensures { IfOk result (λ _. (rest : Plan) → found.old.items ++ contexts_of order.now p.now (command_plan c.now rest) pc
        ≡ found.new.items ++ contexts_of order.now p.now rest pc) }
{
    match &c.form {
        Form::Skip | Form::Assign { .. } | Form::Put { .. } | Form::Sleep { .. } => Ok(()),
        Form::If {
            guard,
            then_part,
            else_part,
        } => {
            let inner = order.join(pc, label(guard, p, order));
            list_contexts(then_part, p, order, inner, found)?;
            list_contexts(else_part, p, order, inner, found)?;
            Ok(())
        }
        Form::While { guard, body } => {
            let inner = order.join(pc, label(guard, p, order));
            list_contexts(body, p, order, inner, found)?;
            Ok(())
        }
        Form::Mitigate {
            mark: _,
            estimate: _,
            level: _,
            body,
        } => {
            found.push(pc)?;
            list_contexts(body, p, order, pc, found)?;
            Ok(())
        }
    }
}

/// Appends the program-counter labels of the mitigates in a list, in order of the text.
#[cycle(contexts)]
pub(crate) fn list_contexts(
    commands: &[Command],
    p: &Labels,
    order: &Lattice,
    pc: Label,
    found: &mut Vec<Label>,
) -> Result<(), AllocError>
    ensures { IfOk result (λ _. found.new.items ≡ found.old.items ++ contexts_of order.now p.now (list_plan commands.now) pc) }
{
    for c in commands {
        command_contexts(c, p, order, pc, found)?;
    }
    Ok(())
}
