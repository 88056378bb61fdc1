//! One pass over the commands of a program, which finds the first of the cheapest steps to each label.

ghost use Rattle.std.specs.Prelude.{◌++◌, [], true};
ghost use Rattle.mit_syntax.specs.Plan.{Plan, command_plan, list_plan};
ghost use Rattle.mit_syntax.specs.Todo.{Done};
ghost use Rattle.flow_path.specs.Steps.{ends};
ghost use Rattle.flow_path.specs.Distances.{IsKnownIn, ComesIn, PassesIn, IsTimeOf, IsTimeFrom};

use crate::best::{Best, better};
use crate::known_costs::Round;
use crate::parts::{
    after, after_put, after_set, after_skip, here, inside, put_here, put_left, set_left,
};
use crate::sides::Sides;
use crate::step::Spot;
use mit_syntax::ast::{Command, Form};
use timing_types::rule::Rule;

/// The first of the cheapest parts of the time after a command.
#[cycle(ends)]
fn command_end(c: &Command, t: Option<Best>, round: &Round) -> Option<Best>
    requires { IsKnownIn round.now }
    ensures { (rest : Plan) → ComesIn round.now t result (command_plan c.now rest) rest }
{
    match &c.form {
        Form::Skip => after_skip(t, c.pos, &c.labels, round),
        Form::Assign { variable, value } => {
            after_set(t, c.pos, &c.labels, *variable, value, round)
        }
        Form::Put {
            first,
            length: _,
            index,
            value,
        } => after_put(t, c.pos, &c.labels, *first, index, value, round),
        Form::Sleep { time } => after(t, c.pos, &c.labels, time, round),
        Form::If {
            guard,
            then_part,
            else_part,
        } => {
            let start = after(t, c.pos, &c.labels, guard, round);
            let one = list_end(then_part, start, round);
            let other = list_end(else_part, start, round);
            better(one, other)
        }
        Form::While { guard, body } => {
            let start = after(t, c.pos, &c.labels, guard, round);
            list_end(body, start, round)
        }
        Form::Mitigate {
            mark: _,
            estimate,
            level: _,
            body: _,
        } => after(t, c.pos, &c.labels, estimate, round),
    }
}

/// That of the time after a list.
#[cycle(ends)]
fn list_end(commands: &[Command], t: Option<Best>, round: &Round) -> Option<Best>
    requires { IsKnownIn round.now }
    ensures { ComesIn round.now t result (list_plan commands.now) Done }
{
    let mut end = t;
    for c in commands {
        end = command_end(c, end, round);
    }
    end
}

/// That of the time at which the turns of a loop start and end, where its first turn starts at `start`. Where nothing that its
/// body adds is cheaper, the body need not be walked for it.
fn loop_end(body: &[Command], start: Option<Best>, stays: bool, round: &Round) -> Option<Best>
    requires known { IsKnownIn round.now }
    requires time { IsTimeOf round.now start (ends (list_plan body.now) []) stays }
    ensures end { ComesIn round.now start result (list_plan body.now) Done }
    ensures time { IsTimeOf round.now result (ends (list_plan body.now) []) true }
{
    if stays {
        start
    } else {
        list_end(body, start, round)
    }
}

/// Adds the steps by the conditions of a command, and tells the first of the cheapest parts of the time after it. `stays` tells
/// that nothing that the walk from the command on adds to the time is known to be cheaper than what is there: so it is in the
/// body of a loop, whose end is where its turns start.
#[cycle(steps)]
fn command_pass(
    c: &Command,
    pc: Option<Best>,
    t: Option<Best>,
    sides: &mut Sides,
    round: &Round,
    stays: bool,
) -> Option<Best>
    requires known { IsKnownIn round.now }
    requires time { IsTimeFrom round.now t c.now stays }
    ensures passes { (rest : Plan) → PassesIn round.now sides.old sides.new pc t result (command_plan c.now rest) rest }
    ensures comes { (rest : Plan) → ComesIn round.now t result (command_plan c.now rest) rest }
{
    match &c.form {
        Form::Skip => {
            sides.add_label(
                Rule::Skip,
                c.pos,
                &c.labels,
                pc,
                round.program,
                round.target,
            );
            after_skip(t, c.pos, &c.labels, round)
        }
        Form::Assign { variable, value } => {
            let left = set_left(pc, t, c.pos, &c.labels, value, round);
            let own = here(pc, c.pos, value, round);
            let side = Spot::Variable(*variable);
            sides.add(Rule::Asgn, c.pos, side, left, round.program, round.target);
            sides.add_label(
                Rule::Asgn,
                c.pos,
                &c.labels,
                own,
                round.program,
                round.target,
            );
            after_set(t, c.pos, &c.labels, *variable, value, round)
        }
        Form::Put {
            first,
            length: _,
            index,
            value,
        } => {
            let left = put_left(pc, t, c.pos, &c.labels, index, value, round);
            let own = put_here(pc, c.pos, index, value, round);
            let side = Spot::Variable(*first);
            sides.add(Rule::Asgn, c.pos, side, left, round.program, round.target);
            sides.add_label(
                Rule::Asgn,
                c.pos,
                &c.labels,
                own,
                round.program,
                round.target,
            );
            after_put(t, c.pos, &c.labels, *first, index, value, round)
        }
        Form::Sleep { time } => {
            let own = here(pc, c.pos, time, round);
            sides.add_label(
                Rule::Sleep,
                c.pos,
                &c.labels,
                own,
                round.program,
                round.target,
            );
            after(t, c.pos, &c.labels, time, round)
        }
        Form::If {
            guard,
            then_part,
            else_part,
        } => {
            let own = here(pc, c.pos, guard, round);
            sides.add_label(Rule::If, c.pos, &c.labels, own, round.program, round.target);
            let start = after(t, c.pos, &c.labels, guard, round);
            let inner = inside(pc, c.pos, guard, round);
            let one = list_pass(then_part, inner, start, sides, round, stays);
            let other = list_pass(else_part, inner, start, sides, round, stays);
            better(one, other)
        }
        Form::While { guard, body } => {
            let own = here(pc, c.pos, guard, round);
            sides.add_label(
                Rule::While,
                c.pos,
                &c.labels,
                own,
                round.program,
                round.target,
            );
            let start = after(t, c.pos, &c.labels, guard, round);
            let end = loop_end(body, start, stays, round);
            let inner = inside(pc, c.pos, guard, round);
            let _again = list_pass(body, inner, end, sides, round, true);
            end
        }
        Form::Mitigate {
            mark,
            estimate,
            level,
            body,
        } => {
            let own = here(pc, c.pos, estimate, round);
            sides.add_label(
                Rule::Mtg,
                c.pos,
                &c.labels,
                own,
                round.program,
                round.target,
            );
            let start = after(t, c.pos, &c.labels, estimate, round);
            let last = list_pass(body, pc, start, sides, round, false);
            let side = Spot::Level(*mark, *level);
            sides.add(Rule::Mtg, c.pos, side, last, round.program, round.target);
            start
        }
    }
}

/// Adds those by the conditions of a list, where `pc` is of the guards around it and `t` of the time before it, and tells
/// the first of the cheapest parts of the time after it.
#[cycle(steps)]
pub(crate) fn list_pass(
    commands: &[Command],
    pc: Option<Best>,
    t: Option<Best>,
    sides: &mut Sides,
    round: &Round,
    stays: bool,
) -> Option<Best>
    requires known { IsKnownIn round.now }
    requires time { IsTimeOf round.now t (ends (list_plan commands.now) []) stays }
    ensures passes { PassesIn round.now sides.old sides.new pc t result (list_plan commands.now) Done }
    ensures comes { ComesIn round.now t result (list_plan commands.now) Done }
{
    let mut end = t;
    for c in commands {
        end = command_pass(c, pc, end, sides, round, stays);
    }
    end
}
