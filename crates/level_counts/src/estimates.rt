//! The estimates of a program's mitigates.

ghost use Rattle.std.specs.Prelude.{◌≡◌, ◌++◌, IfOk, map};
ghost use Rattle.mit_syntax.specs.Expression.{expression_of};
ghost use Rattle.mit_syntax.specs.Plan.{Plan, command_plan, list_plan};
ghost use Rattle.mit_syntax.specs.Program.{plan_of};
ghost use Rattle.level_counts.specs.Estimates.{estimates_of};

use mit_syntax::ast::{Command, Expr, Form};
use mit_syntax::program::Program;
use std::alloc::{AllocError, Global};
use text_base::pos::Memory;

// Appends the estimates of the mitigates in a command, in order of the text.
#[cycle(estimates)]
fn command_estimates<'a>(c: &'a Command, found: &mut Vec<&'a Expr>) -> Result<(), AllocError>
    ensures { IfOk result (λ _. (rest : Plan) → map (λ e. expression_of e.now) found.old.items ++ estimates_of (command_plan c.now rest)
        ≡ map (λ e. expression_of e.now) found.new.items ++ estimates_of rest) }
{
    match &c.form {
        Form::Skip | Form::Assign { .. } | Form::Put { .. } | Form::Sleep { .. } => Ok(()),
        Form::If {
            guard: _,
            then_part,
            else_part,
        } => {
            list_estimates(then_part, found)?;
            list_estimates(else_part, found)?;
            Ok(())
        }
        Form::While { guard: _, body } => {
            list_estimates(body, found)?;
            Ok(())
        }
        Form::Mitigate {
            mark: _,
            estimate,
            level: _,
            body,
        } => {
            found.push(estimate)?;
            list_estimates(body, found)?;
            Ok(())
        }
    }
}

// Appends the estimates of the mitigates in a list, in order of the text.
#[cycle(estimates)]
fn list_estimates<'a>(commands: &'a [Command], found: &mut Vec<&'a Expr>) -> Result<(), AllocError>
    ensures { IfOk result (λ _. map (λ e. expression_of e.now) found.new.items
        ≡ map (λ e. expression_of e.now) found.old.items ++ estimates_of (list_plan commands.now)) }
{
    for c in commands {
        command_estimates(c, found)?;
    }
    Ok(())
}

/// The estimates of a program's mitigates, by their marks. Fails only for want of memory.
pub fn estimates(alloc: Global, p: &Program) -> Result<Vec<&Expr>, Memory>
    ensures { IfOk result (λ v. map (λ e. expression_of e.now) v.items ≡ estimates_of (plan_of p.now)) }
{
    let mut found = Vec::new(alloc);
    list_estimates(p.body(), &mut found)?;
    Ok(found)
}
