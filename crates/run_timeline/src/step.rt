//! Steps of a run, with what they tell.

ghost use Rattle.std.specs.Prelude.{◌≡◌};
ghost use Rattle.cycle_machine.specs.Took.{Fits, IsServed, Keeps, Stands};
ghost use Rattle.run_timeline.specs.Steps.{IsPlain, Tells, Stepped};

use crate::closing::{begin, end};
use crate::moment::{Moment, Step};
use cycle_machine::end::RunEnd;
use cycle_machine::state::{Outcome, State};
use env_contract::env::MachineEnv;
use label_code::code::{Instr, Work};
use label_code::image::Image;

// An instruction that neither begins nor ends a mitigation.
fn plain<E: MachineEnv>(state: &mut State<E>, i: Instr, limit: u64) -> Step
    requires plain { IsPlain i.work }
    requires fits { Fits i state.old }
    requires served { IsServed E.serves state.old.env i.er i.ew }
    ensures tells { Tells E.env state.old i limit result state.new }
    ensures keeps { Keeps E.serves state.old state.new }
{
    match state.obey(i, limit) {
        Outcome::Went => Step::Went,
        Outcome::Wrote(variable, value) => Step::Told(Moment::Assigned {
            variable,
            value,
            cycle: state.clock,
        }),
        Outcome::Halted => Step::Stopped(RunEnd::Halted(state.clock)),
        Outcome::Began(_) | Outcome::Ended(_) | Outcome::Late => {
            Step::Stopped(RunEnd::Limit(state.clock))
        }
    }
}

// Any instruction.
fn obey<E: MachineEnv>(state: &mut State<E>, i: Instr, limit: u64) -> Step
    requires fits { Fits i state.old }
    requires served { IsServed E.serves state.old.env i.er i.ew }
    ensures tells { Tells E.env state.old i limit result state.new }
    ensures keeps { Keeps E.serves state.old state.new }
{
    match i.work {
        Work::Mitb { level, mark } => begin(state, level, mark, i.er, i.ew, limit),
        Work::Mite => end(state, i.er, i.ew, limit),
        _ => plain(state, i, limit),
    }
}

/// One step, if it ends within the limit.
pub fn step<E: MachineEnv>(image: &Image, state: &mut State<E>, limit: u64) -> Step
    requires { Stands E.serves image.now state.old }
    ensures { Stepped E.env E.serves image.now state.old limit result state.new }
{
    state.laws();
    let i = image.at(state.place);
    obey(state, i, limit)
}
