//! From a place of an image to the command in whose own code it lies.

ghost use Rattle.std.specs.Prelude.{◌≡◌, ◌≤◌, ◌<◌, ◌+◌, MatchOption};
ghost use Rattle.mit_syntax.specs.Expression.{expression_of};
ghost use Rattle.mit_syntax.specs.Plan.{command_plan, list_plan};
ghost use Rattle.mit_syntax.specs.Program.{plan_of};
ghost use Rattle.code_lower.specs.Layout.{expr_size};
ghost use Rattle.lab_steady.specs.Owner.{IsIn, IsOwn, IsPassed, owner, same_place};

use mit_syntax::ast::{Command, Expr, Form};
use mit_syntax::program::Program;
use text_base::pos::Pos;

/// What a walk over code finds of a place.
#[derive(Clone, Copy)]
pub(crate) enum Found {
    /// It lies in the own code of the command at this position.
    At(Pos),
    /// It lies behind the code, which ends before this place.
    After(u32),
}

/// The place after one instruction, where that is not past `place`.
fn next(at: u32, place: u32) -> Option<u32>
    requires { at ≤ place }
    ensures { MatchOption result (place < at + 1) (λ b. (b ≡ at + 1) × (b ≤ place)) }
{
    if at < place { Some(at + 1) } else { None }
}

/// The place after the code of an expression, where that is not past `place`.
fn past(e: &Expr, at: u32, place: u32) -> Option<u32>
    requires { at ≤ place }
    ensures { MatchOption result (place < at + expr_size (expression_of e.now)) (λ b. (b ≡ at + expr_size (expression_of e.now)) × (b ≤ place)) }
{
    match e {
        Expr::Number(_) | Expr::Variable(_) => next(at, place),
        Expr::Binary(_, left, right) => {
            let Some(middle) = past(left, at, place) else {
                return None;
            };
            let Some(end) = past(right, middle, place) else {
                return None;
            };
            next(end, place)
        }
        Expr::Element {
            first: _,
            length: _,
            index,
        } => {
            let Some(end) = past(index, at, place) else {
                return None;
            };
            next(end, place)
        }
    }
}

/// One instruction of a command's own code.
fn one(pos: Pos, at: u32, place: u32) -> Found
    requires { at ≤ place }
    ensures { IsOwn pos (at + 1) place result }
{
    if at < place {
        Found::After(at + 1)
    } else {
        Found::At(pos)
    }
}

/// The code of an expression of a command, and one instruction.
fn tested(pos: Pos, e: &Expr, at: u32, place: u32) -> Found
    requires { at ≤ place }
    ensures { IsOwn pos (at + expr_size (expression_of e.now) + 1) place result }
{
    match past(e, at, place) {
        Some(end) => one(pos, end, place),
        None => Found::At(pos),
    }
}

/// The code of an index and of a value, and one instruction.
fn put(pos: Pos, index: &Expr, value: &Expr, at: u32, place: u32) -> Found
    requires { at ≤ place }
    ensures { IsOwn pos (at + expr_size (expression_of index.now) + expr_size (expression_of value.now) + 1) place result }
{
    match past(index, at, place) {
        Some(end) => tested(pos, value, end, place),
        None => Found::At(pos),
    }
}

/// A command's code, which stands from `at` on.
#[cycle(owners)]
fn command_owner(c: &Command, at: u32, place: u32) -> Found
    requires { at ≤ place }
    ensures { IsPassed (λ rest. command_plan c.now rest) at place result }
{
    match &c.form {
        Form::Skip => one(c.pos, at, place),
        Form::Assign { variable: _, value } => tested(c.pos, value, at, place),
        Form::Put {
            first: _,
            length: _,
            index,
            value,
        } => put(c.pos, index, value, at, place),
        Form::Sleep { time } => tested(c.pos, time, at, place),
        Form::If {
            guard,
            then_part,
            else_part,
        } => {
            let Found::After(chosen) = tested(c.pos, guard, at, place) else {
                return Found::At(c.pos);
            };
            let jump = match list_owner(then_part, chosen, place) {
                Found::After(jump) => jump,
                Found::At(pos) => return Found::At(pos),
            };
            let Found::After(other) = one(c.pos, jump, place) else {
                return Found::At(c.pos);
            };
            list_owner(else_part, other, place)
        }
        Form::While { guard, body } => {
            let Found::After(begin) = tested(c.pos, guard, at, place) else {
                return Found::At(c.pos);
            };
            match list_owner(body, begin, place) {
                Found::After(again) => tested(c.pos, guard, again, place),
                Found::At(pos) => Found::At(pos),
            }
        }
        Form::Mitigate {
            mark: _,
            estimate,
            level: _,
            body,
        } => {
            let Found::After(begin) = tested(c.pos, estimate, at, place) else {
                return Found::At(c.pos);
            };
            match list_owner(body, begin, place) {
                Found::After(end) => one(c.pos, end, place),
                Found::At(pos) => Found::At(pos),
            }
        }
    }
}

/// The code of a list, which stands from `at` on.
#[cycle(owners)]
fn list_owner(commands: &[Command], at: u32, place: u32) -> Found
    requires { at ≤ place }
    ensures { IsIn (list_plan commands.now) at place result }
{
    let mut gone = at;
    for c in commands {
        match command_owner(c, gone, place) {
            Found::After(end) => gone = end,
            Found::At(pos) => return Found::At(pos),
        }
    }
    Found::After(gone)
}

/// The position of the command in whose own code a place of the program's image lies, or `None` for that of HALT and
/// beyond.
pub(crate) fn owner_of(p: &Program, place: u32) -> Option<Pos>
    ensures { result ≡ owner (plan_of p.now) 0 place }
{
    match list_owner(p.body(), 0, place) {
        Found::At(pos) => Some(pos),
        Found::After(_) => None,
    }
}

/// Whether two positions are there and are one.
pub(crate) fn is_one_place(a: Option<Pos>, b: Option<Pos>) -> bool
    ensures { result ≡ same_place a b }
{
    let (Some(a), Some(b)) = (a, b) else {
        return false;
    };
    a.line == b.line && a.column == b.column
}
