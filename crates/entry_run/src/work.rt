//! One step without the wait of a mitigation that ends.

ghost use Rattle.std.specs.Prelude.{◌≡◌, ◌<◌, ◌+◌, ◌*◌, MatchBool, Some, slice_get, vec_len};
ghost use Rattle.label_code.specs.Shaped.{closes};
ghost use Rattle.cycle_machine.specs.Took.{IsServed, Stands};
ghost use Rattle.entry_run.specs.Worked.{ClosedAtOnce, Worked, pace_of};

use cycle_machine::access::{fetch, pass};
use cycle_machine::state::{Outcome, State};
use env_contract::env::MachineEnv;
use env_contract::place::Kind;
use label_code::code::{Instr, Work};
use label_code::image::{Image, MAX_INSTRUCTIONS};
use label_lattice::label::Label;

/// What a step did.
#[derive(Clone, Copy)]
pub enum Pace {
    /// It went on.
    Went,
    /// It was HALT.
    Halted,
    /// It would end after the limit.
    Late,
}

// MITE without its wait, if it ends within the limit.
fn close_at_once<E: MachineEnv>(state: &mut State<E>, er: Label, ew: Label, limit: u64) -> bool
    requires place { state.old.place < MAX_INSTRUCTIONS }
    requires served { IsServed E.serves state.old.env er ew }
    requires open { 0 < vec_len state.old.opened }
    ensures { MatchBool result (ClosedAtOnce E.env E.serves er ew limit state.old state.new)
        (limit < state.old.clock + (1 + E.env.cost_of Kind.Code (4 * state.old.place) er.number ew.number state.old.env)) }
{
    let fetched = fetch(&mut state.env, state.place, er, ew);
    let Some(end) = pass(state.clock, 1 + fetched, limit) else {
        return false;
    };
    let Some(_) = state.opened.pop() else {
        unreachable!()
    };
    state.clock = end;
    state.place += 1;
    true
}

// Whether what an instruction did ends the run, and whether it is within the limit.
fn pace_after(outcome: Outcome) -> Pace
    ensures { result ≡ pace_of outcome }
{
    match outcome {
        Outcome::Went | Outcome::Wrote(..) | Outcome::Began(_) | Outcome::Ended(_) => Pace::Went,
        Outcome::Halted => Pace::Halted,
        Outcome::Late => Pace::Late,
    }
}

// Any other instruction, if it ends within the limit.
fn obey_other<E: MachineEnv>(image: &Image, state: &mut State<E>, i: Instr, limit: u64) -> Pace
    requires stands { Stands E.serves image.now state.old }
    requires there { slice_get image.now.instrs state.old.place ≡ Some i }
    requires other { closes i.work ≡ 0 }
    ensures { Worked E.env E.serves image.now state.old limit result state.new }
{
    image.laws();
    state.laws();
    let outcome = state.obey(i, limit);
    pace_after(outcome)
}

/// One step without the wait of a mitigation that ends, if it ends within the limit.
pub fn work<E: MachineEnv>(image: &Image, state: &mut State<E>, limit: u64) -> Pace
    requires { Stands E.serves image.now state.old }
    ensures { Worked E.env E.serves image.now state.old limit result state.new }
{
    state.laws();
    let i = image.at(state.place);
    match i.work {
        Work::Mite => {
            if close_at_once(state, i.er, i.ew, limit) {
                Pace::Went
            } else {
                Pace::Late
            }
        }
        _ => obey_other(image, state, i, limit),
    }
}
