//! How many commands and mitigates there are.

ghost use Rattle.std.specs.Prelude.{◌≡◌, ◌<◌, ◌+◌, ◌^◌};
ghost use Rattle.mit_syntax.specs.Todo.{Done};
ghost use Rattle.mit_syntax.specs.Plan.{count, list_plan, command_plan};
ghost use Rattle.mit_syntax.specs.Counted.{IsCount};

use crate::ast::{Command, Form};

/// How many commands there are, those inside others included, and how many of them are mitigates.
#[derive(Clone, Copy)]
pub struct Counts {
    pub commands: u32,
    pub mitigates: u32,
}

fn sum(a: Counts, b: Counts) -> Counts
    requires commands { a.commands + b.commands < 2 ^ 32 }
    requires mitigates { a.mitigates + b.mitigates < 2 ^ 32 }
    ensures commands { result.commands ≡ a.commands + b.commands }
    ensures mitigates { result.mitigates ≡ a.mitigates + b.mitigates }
{
    Counts {
        commands: a.commands + b.commands,
        mitigates: a.mitigates + b.mitigates,
    }
}

/// The counts of a list of fewer than 2^32 commands.
#[cycle(count)]
pub fn count_list(commands: &[Command]) -> Counts
    requires { count (list_plan commands.now) < 2 ^ 32 }
    ensures { IsCount result (list_plan commands.now) }
{
    let mut total = Counts {
        commands: 0,
        mitigates: 0,
    };
    for c in commands {
        total = sum(total, count_command(c));
    }
    total
}

#[cycle(count)]
fn count_command(command: &Command) -> Counts
    requires { count (command_plan command.now Done) < 2 ^ 32 }
    ensures { IsCount result (command_plan command.now Done) }
{
    let one = Counts {
        commands: 1,
        mitigates: 0,
    };
    match &command.form {
        Form::If {
            guard: _,
            then_part,
            else_part,
        } => sum(sum(one, count_list(then_part)), count_list(else_part)),
        Form::While { guard: _, body } => sum(one, count_list(body)),
        Form::Mitigate {
            mark: _,
            estimate: _,
            level: _,
            body,
        } => {
            let mitigate = Counts {
                commands: 1,
                mitigates: 1,
            };
            sum(mitigate, count_list(body))
        }
        Form::Skip | Form::Assign { .. } | Form::Put { .. } | Form::Sleep { .. } => one,
    }
}
