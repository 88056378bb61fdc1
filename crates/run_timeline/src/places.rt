//! Where the mitigates of a program stand.

ghost use Rattle.std.specs.Prelude.{◌≡◌, ◌++◌, IfOk};
ghost use Rattle.mit_syntax.specs.Plan.{Plan, command_plan, list_plan};
ghost use Rattle.mit_syntax.specs.Program.{plan_of};
ghost use Rattle.run_timeline.specs.Places.{places};

use mit_syntax::ast::{Command, Form};
use mit_syntax::program::Program;
use std::alloc::{AllocError, Global};
use text_base::pos::{Memory, Pos};

// Appends the places of the mitigates in a command, in order of the text.
#[cycle(places)]
fn command_places(c: &Command, found: &mut Vec<Pos>) -> Result<(), AllocError>
    ensures { IfOk result (λ _. (rest : Plan) → found.old.items ++ places (command_plan c.now rest) ≡ found.new.items ++ places rest) }
{
    match &c.form {
        Form::Skip | Form::Assign { .. } | Form::Put { .. } | Form::Sleep { .. } => Ok(()),
        Form::If {
            guard: _,
            then_part,
            else_part,
        } => {
            list_places(then_part, found)?;
            list_places(else_part, found)?;
            Ok(())
        }
        Form::While { guard: _, body } => {
            list_places(body, found)?;
            Ok(())
        }
        Form::Mitigate {
            mark: _,
            estimate: _,
            level: _,
            body,
        } => {
            found.push(c.pos)?;
            list_places(body, found)?;
            Ok(())
        }
    }
}

// Appends the places of the mitigates in a list, in order of the text.
#[cycle(places)]
fn list_places(commands: &[Command], found: &mut Vec<Pos>) -> Result<(), AllocError>
    ensures { IfOk result (λ _. found.new.items ≡ found.old.items ++ places (list_plan commands.now)) }
{
    for c in commands {
        command_places(c, found)?;
    }
    Ok(())
}

/// The places of a program's mitigates, in order of the text: each is where its first word stands. Fails only
/// for want of memory.
pub fn mitigate_places(alloc: Global, p: &Program) -> Result<Vec<Pos>, Memory>
    ensures { IfOk result (λ v. v.items ≡ places (plan_of p.now)) }
{
    let mut found = Vec::new(alloc);
    list_places(p.body(), &mut found)?;
    Ok(found)
}
