//! Commands with all labels of a labelling.

ghost use Rattle.std.specs.Prelude.{◌≡◌, ◌+◌, ◌<◌, ◌^◌, IfOk};
ghost use Rattle.mit_syntax.specs.Todo.{Done};
ghost use Rattle.mit_syntax.specs.Plan.{Plan, form_plan, command_plan, list_plan, count};
ghost use Rattle.timing_types.specs.Labelling.{marks_of};
ghost use Rattle.timing_types.specs.Placed.{placed};
ghost use Rattle.label_write.specs.Written.{with_marks, written_plan};

use crate::expressions::copy;
use label_lattice::lattice::Lattice;
use mit_syntax::ast::{Command, Form};
use std::alloc::{AllocError, Global};
use timing_types::labels::Labels;

/// The number after a command, and what the command does, with the labels inside it.
#[cycle(command)]
fn write_form(
    alloc: Global,
    c: &Command,
    labels: &Labels,
    order: &Lattice,
    number: usize,
) -> Result<(usize, Form), AllocError>
    requires { number + count (command_plan c.now Done) < 2 ^ 31 }
    ensures number { IfOk result (λ r. r.0 ≡ number + count (command_plan c.now Done)) }
    ensures form { IfOk result (λ r. (rest : Plan) → written_plan order.now labels.now (command_plan c.now rest) number
        ≡ form_plan r.1 (with_marks (placed (marks_of order.now labels.now) (record { pos = c.now.pos; labels = c.now.labels }) number))
        (written_plan order.now labels.now rest r.0)) }
{
    let next = number + 1;
    match &c.form {
        Form::Skip => Ok((next, Form::Skip)),
        Form::Assign { variable, value } => {
            let variable = *variable;
            let value = copy(alloc, value)?;
            Ok((next, Form::Assign { variable, value }))
        }
        Form::Put {
            first,
            length,
            index,
            value,
        } => {
            let (first, length) = (*first, *length);
            let index = copy(alloc, index)?;
            let value = copy(alloc, value)?;
            Ok((
                next,
                Form::Put {
                    first,
                    length,
                    index,
                    value,
                },
            ))
        }
        Form::Sleep { time } => {
            let time = copy(alloc, time)?;
            Ok((next, Form::Sleep { time }))
        }
        Form::If {
            guard,
            then_part,
            else_part,
        } => {
            let guard = copy(alloc, guard)?;
            let (middle, then_part) = write_list(alloc, then_part, labels, order, next)?;
            let (end, else_part) = write_list(alloc, else_part, labels, order, middle)?;
            Ok((
                end,
                Form::If {
                    guard,
                    then_part,
                    else_part,
                },
            ))
        }
        Form::While { guard, body } => {
            let guard = copy(alloc, guard)?;
            let (end, body) = write_list(alloc, body, labels, order, next)?;
            Ok((end, Form::While { guard, body }))
        }
        Form::Mitigate {
            mark,
            estimate,
            level: _,
            body,
        } => {
            let mark = *mark;
            let estimate = copy(alloc, estimate)?;
            let level = Some(labels.level(mark, order));
            let (end, body) = write_list(alloc, body, labels, order, next)?;
            Ok((
                end,
                Form::Mitigate {
                    mark,
                    estimate,
                    level,
                    body,
                },
            ))
        }
    }
}

/// The number after a command, and the command with its labels.
#[cycle(command)]
fn write_command(
    alloc: Global,
    c: &Command,
    labels: &Labels,
    order: &Lattice,
    number: usize,
) -> Result<(usize, Command), AllocError>
    requires { number + count (command_plan c.now Done) < 2 ^ 31 }
    ensures number { IfOk result (λ r. r.0 ≡ number + count (command_plan c.now Done)) }
    ensures command { IfOk result (λ r. (rest : Plan) → written_plan order.now labels.now (command_plan c.now rest) number
        ≡ command_plan r.1 (written_plan order.now labels.now rest r.0)) }
{
    let (next, form) = write_form(alloc, c, labels, order, number)?;
    let command = Command {
        pos: c.pos,
        labels: Some(labels.command(number, order)),
        form,
    };
    Ok((next, command))
}

/// The number after commands, and the commands with their labels. The numbers of commands are below 2^31.
///
/// # Errors
/// `AllocError` where memory runs out.
#[cycle(command)]
pub(crate) fn write_list(
    alloc: Global,
    commands: &[Command],
    labels: &Labels,
    order: &Lattice,
    number: usize,
) -> Result<(usize, Vec<Command>), AllocError>
    requires { number + count (list_plan commands.now) < 2 ^ 31 }
    ensures number { IfOk result (λ r. r.0 ≡ number + count (list_plan commands.now)) }
    ensures commands { IfOk result (λ r. list_plan r.1.items ≡ written_plan order.now labels.now (list_plan commands.now) number) }
{
    let mut written = Vec::with_capacity(alloc, commands.len())?;
    let mut next = number;
    for c in commands {
        let (after, command) = write_command(alloc, c, labels, order, next)?;
        written.push(command)?;
        next = after;
    }
    Ok((next, written))
}
