//! Instructions that begin and end a mitigation, and what they tell.

ghost use Rattle.std.specs.Prelude.{◌≡◌, ◌+◌, ◌<◌, ◌≤◌, vec_len, vec_capacity};
ghost use Rattle.cycle_machine.specs.Took.{IsServed, Keeps};
ghost use Rattle.run_timeline.specs.Steps.{Tells};

use crate::moment::{Moment, Step};
use cycle_machine::access::{fetch, pass};
use cycle_machine::end::RunEnd;
use cycle_machine::state::{Outcome, State};
use env_contract::env::MachineEnv;
use label_code::code::Work;
use label_code::image::MAX_INSTRUCTIONS;
use label_lattice::label::{Label, MAX_LABELS};

/// MITB.
pub fn begin<E: MachineEnv>(
    state: &mut State<E>,
    level: Label,
    mark: u32,
    er: Label,
    ew: Label,
    limit: u64,
) -> Step
    requires place { state.old.place < MAX_INSTRUCTIONS }
    requires served { IsServed E.serves state.old.env er ew }
    requires depth { 0 < vec_len state.old.operands }
    requires room { vec_len state.old.opened < vec_capacity state.old.opened }
    requires known { level.number < MAX_LABELS }
    ensures tells { Tells E.env state.old (record { work = Work.Mitb level mark; er = er; ew = ew }) limit result state.new }
    ensures keeps { Keeps E.serves state.old state.new }
{
    let Some(&estimate) = state.operands.last() else {
        unreachable!()
    };
    let Outcome::Began(mark) = state.begin(level, mark, er, ew, limit) else {
        return Step::Stopped(RunEnd::Limit(state.clock));
    };
    Step::Told(Moment::Begins {
        mark,
        estimate,
        predicts: state.misses.predict(estimate, level),
        misses: state.misses.misses(level),
        cycle: state.clock,
    })
}

/// MITE. A mitigation never ends before its fetch does, so the limit is tested first after that.
pub fn end<E: MachineEnv>(state: &mut State<E>, er: Label, ew: Label, limit: u64) -> Step
    requires place { state.old.place < MAX_INSTRUCTIONS }
    requires served { IsServed E.serves state.old.env er ew }
    requires open { 0 < vec_len state.old.opened }
    ensures tells { Tells E.env state.old (record { work = Work.Mite; er = er; ew = ew }) limit result state.new }
    ensures keeps { Keeps E.serves state.old state.new }
{
    let fetched = fetch(&mut state.env, state.place, er, ew);
    let Some(now) = pass(state.clock, 1 + fetched, limit) else {
        return Step::Stopped(RunEnd::Limit(state.clock));
    };
    let Some(open) = state.opened.pop() else {
        unreachable!()
    };
    let worked = now.saturating_sub(open.since);
    let before = state.misses.misses(open.level);
    let lasts = state.misses.settle(open.estimate, open.level, worked);
    let end = open.since as u128 + lasts;
    if end > limit as u128 {
        return Step::Stopped(RunEnd::Limit(state.clock));
    }
    state.clock = end as u64;
    state.place += 1;
    Step::Told(Moment::Ends {
        mark: open.mark,
        worked,
        lasts: lasts as u64,
        before,
        after: state.misses.misses(open.level),
        cycle: state.clock,
    })
}
