//! The places of a program's commands.

ghost use Rattle.std.specs.Prelude.{◌≡◌, ◌+◌, ◌<◌, ◌++◌, ℕ, drop, length, IfOk};
ghost use Rattle.label_lattice.specs.Order.{lattice_of};
ghost use Rattle.mit_syntax.specs.Plan.{Plan, command_plan, list_plan, form_count, count};
ghost use Rattle.timing_types.specs.Labelling.{label_at};
ghost use Rattle.type_cert.specs.declared.place.Close.{Close};
ghost use Rattle.type_cert.specs.declared.place.Start.TheVariants.{After};
ghost use Rattle.type_cert.specs.Places.{places, closing, last_of};

use crate::place::{Act, Close, Place, Start};
use label_lattice::label::Label;
use label_lattice::lattice::Lattice;
use mit_syntax::ast::{Command, Form};
use std::alloc::AllocError;
use timing_types::expressions::{index_label, label, variable_label};

/// Appends the places of a command and of those inside it, in order of the text.
#[cycle(places)]
fn command_places(
    c: &Command,
    variables: &[Label],
    order: &Lattice,
    pc: Label,
    start: Start,
    close: Close,
    found: &mut Vec<Place>,
) -> Result<(), AllocError>
    ensures count { IfOk result (λ _. length found.new.items
        ≡ length found.old.items + form_count c.now.form (record { pos = c.now.pos; labels = c.now.labels })) }
    ensures places { IfOk result (λ _. (rest : Plan) (last : Close) → close ≡ closing rest last
        → found.old.items ++ places (lattice_of order.now) (label_at order.now.bottom variables.now) (command_plan c.now rest) (length found.old.items)
        pc.number start last ≡ found.new.items ++ places (lattice_of order.now) (label_at order.now.bottom variables.now) rest (length found.new.items)
        pc.number (After (length found.old.items)) last) }
    ensures last { IfOk result (λ _. (rest : Plan) (last : ℕ)
        → last_of (command_plan c.now rest) (length found.old.items) last ≡ last_of rest (length found.new.items) (length found.old.items)) }
{
    let number = found.len();
    match &c.form {
        Form::Skip => {
            found.push(Place {
                written: c.labels,
                pc,
                here: pc,
                act: Act::Skip,
                start,
                close,
            })?;
            Ok(())
        }
        Form::Assign { variable, value } => {
            let le = label(value, variables, order);
            let li = index_label(value, variables, order);
            found.push(Place {
                written: c.labels,
                pc,
                here: order.join(pc, li),
                act: Act::Assign {
                    reads: order.join(order.join(le, li), pc),
                    target: variable_label(variables, *variable, order),
                },
                start,
                close,
            })?;
            Ok(())
        }
        Form::Put {
            first,
            length: _,
            index,
            value,
        } => {
            let le = label(value, variables, order);
            let li = order.join(
                label(index, variables, order),
                index_label(value, variables, order),
            );
            found.push(Place {
                written: c.labels,
                pc,
                here: order.join(pc, li),
                act: Act::Assign {
                    reads: order.join(order.join(le, li), pc),
                    target: variable_label(variables, *first, order),
                },
                start,
                close,
            })?;
            Ok(())
        }
        Form::Sleep { time } => {
            found.push(Place {
                written: c.labels,
                pc,
                here: order.join(pc, index_label(time, variables, order)),
                act: Act::Sleep {
                    time: label(time, variables, order),
                },
                start,
                close,
            })?;
            Ok(())
        }
        Form::If {
            guard,
            then_part,
            else_part,
        } => {
            let le = label(guard, variables, order);
            let inner = order.join(pc, le);
            found.push(Place {
                written: c.labels,
                pc,
                here: order.join(pc, index_label(guard, variables, order)),
                act: Act::If { guard: le },
                start,
                close,
            })?;
            let from = Start::Within {
                whole: number,
                reads: le,
            };
            let then_last = list_places(
                then_part,
                variables,
                order,
                inner,
                from,
                Close::Open,
                found,
            )?;
            let both = Close::If {
                whole: number,
                then_last,
            };
            list_places(else_part, variables, order, inner, from, both, found)?;
            Ok(())
        }
        Form::While { guard, body } => {
            let le = label(guard, variables, order);
            let inner = order.join(pc, le);
            found.push(Place {
                written: c.labels,
                pc,
                here: order.join(pc, index_label(guard, variables, order)),
                act: Act::While { guard: le },
                start,
                close,
            })?;
            let from = Start::Around(number);
            list_places(
                body,
                variables,
                order,
                inner,
                from,
                Close::While(number),
                found,
            )?;
            Ok(())
        }
        Form::Mitigate {
            mark: _,
            estimate,
            level,
            body,
        } => {
            let le = label(estimate, variables, order);
            found.push(Place {
                written: c.labels,
                pc,
                here: order.join(pc, index_label(estimate, variables, order)),
                act: Act::Mitigate {
                    estimate: le,
                    level: *level,
                },
                start,
                close,
            })?;
            let from = Start::Within {
                whole: number,
                reads: le,
            };
            list_places(
                body,
                variables,
                order,
                pc,
                from,
                Close::Mitigate(number),
                found,
            )?;
            Ok(())
        }
    }
}

/// What the command at an index of a list closes, where the last one closes this.
fn closing(commands: &[Command], index: usize, close: Close) -> Close
    requires { index < length commands.now }
    ensures { result ≡ closing (list_plan (drop (index + 1) commands.now)) close }
{
    if index + 1 == commands.len() {
        return close;
    }
    Close::Open
}

/// Appends the places of a list, in order of the text: the number of its last command.
#[cycle(places)]
pub(crate) fn list_places(
    commands: &[Command],
    variables: &[Label],
    order: &Lattice,
    pc: Label,
    start: Start,
    close: Close,
    found: &mut Vec<Place>,
) -> Result<usize, AllocError>
    ensures count { IfOk result (λ _. length found.new.items ≡ length found.old.items + count (list_plan commands.now)) }
    ensures places { IfOk result (λ _. found.new.items
        ≡ found.old.items ++ places (lattice_of order.now) (label_at order.now.bottom variables.now) (list_plan commands.now) (length found.old.items) pc.number
        start close) }
    ensures last { IfOk result (λ last. last ≡ last_of (list_plan commands.now) (length found.old.items) (length found.old.items)) }
{
    let mut last = found.len();
    let mut from = start;
    for (k, c) in commands.iter().enumerate() {
        last = found.len();
        command_places(
            c,
            variables,
            order,
            pc,
            from,
            closing(commands, k, close),
            found,
        )?;
        from = Start::After(last);
    }
    Ok(last)
}
