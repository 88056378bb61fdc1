//! Instructions that begin and end a mitigation.

ghost use Rattle.std.specs.Prelude.{◌≡◌, ◌+◌, ◌<◌, ◌≤◌, vec_len, vec_capacity};
ghost use Rattle.cycle_machine.specs.Took.{IsServed, Took, Keeps};

use crate::access::{fetch, pass};
use crate::state::{Open, Outcome, State};
use env_contract::env::MachineEnv;
use label_code::code::Work;
use label_code::image::MAX_INSTRUCTIONS;
use label_lattice::label::{Label, MAX_LABELS};

impl<E: MachineEnv> State<E> {
    /// MITB.
    #[inline(always)]
    pub fn begin(&mut self, level: Label, mark: u32, er: Label, ew: Label, limit: u64) -> Outcome
        requires place { self.old.place < MAX_INSTRUCTIONS }
        requires served { IsServed E.serves self.old.env er ew }
        requires depth { 0 < vec_len self.old.operands }
        requires room { vec_len self.old.opened < vec_capacity self.old.opened }
        requires known { level.number < MAX_LABELS }
        ensures took { Took E.env self.old (record { work = Work.Mitb level mark; er = er; ew = ew }) limit result self.new }
        ensures keeps { Keeps E.serves self.old self.new }
    {
        let fetched = fetch(&mut self.env, self.place, er, ew);
        let Some(estimate) = self.operands.pop() else {
            unreachable!()
        };
        let Some(end) = pass(self.clock, 1 + fetched, limit) else {
            return Outcome::Late;
        };
        self.clock = end;
        self.place += 1;
        self.opened.push_reserved(Open {
            estimate,
            level,
            mark,
            since: end,
        });
        Outcome::Began(mark)
    }

    /// MITE. A mitigation never ends before its fetch does, so the limit is tested first after that.
    #[inline(always)]
    pub fn end(&mut self, er: Label, ew: Label, limit: u64) -> Outcome
        requires place { self.old.place < MAX_INSTRUCTIONS }
        requires served { IsServed E.serves self.old.env er ew }
        requires open { 0 < vec_len self.old.opened }
        ensures took { Took E.env self.old (record { work = Work.Mite; er = er; ew = ew }) limit result self.new }
        ensures keeps { Keeps E.serves self.old self.new }
    {
        let fetched = fetch(&mut self.env, self.place, er, ew);
        let Some(now) = pass(self.clock, 1 + fetched, limit) else {
            return Outcome::Late;
        };
        let Some(open) = self.opened.pop() else {
            unreachable!()
        };
        let prediction = self
            .misses
            .settle(open.estimate, open.level, now.saturating_sub(open.since));
        let end = open.since as u128 + prediction;
        if end > limit as u128 {
            return Outcome::Late;
        }
        self.clock = end as u64;
        self.place += 1;
        Outcome::Ended(open.mark)
    }
}
