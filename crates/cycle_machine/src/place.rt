//! Instructions that go elsewhere, wait, or end the run.

ghost use Rattle.std.specs.Prelude.{◌≡◌, ◌+◌, ◌<◌, ◌≤◌, ◌^◌, vec_len, vec_capacity};
ghost use Rattle.doubling_schedule.specs.Doubling.{at_least_zero as floor};
ghost use Rattle.cycle_machine.specs.Took.{IsServed, Took, Keeps};

use crate::access::{fetch, pass};
use crate::state::{Outcome, State};
use env_contract::env::MachineEnv;
use label_code::code::Work;
use label_code::image::MAX_INSTRUCTIONS;
use label_lattice::label::Label;

// The number, or 0 if it is less.
fn at_least_zero(n: i64) -> u64
    ensures value { result ≡ floor n }
    ensures small { result < 2 ^ 63 }
{
    if n < 0 { 0 } else { n as u64 }
}

impl<E: MachineEnv> State<E> {
    /// BRZ.
    #[inline(always)]
    pub fn branch_zero(&mut self, to: u32, er: Label, ew: Label, limit: u64) -> Outcome
        requires place { self.old.place < MAX_INSTRUCTIONS }
        requires served { IsServed E.serves self.old.env er ew }
        requires depth { 0 < vec_len self.old.operands }
        ensures took { Took E.env self.old (record { work = Work.Brz to; er = er; ew = ew }) limit result self.new }
        ensures keeps { Keeps E.serves self.old self.new }
    {
        let fetched = fetch(&mut self.env, self.place, er, ew);
        let Some(n) = self.operands.pop() else {
            unreachable!()
        };
        let Some(end) = pass(self.clock, 1 + fetched, limit) else {
            return Outcome::Late;
        };
        self.clock = end;
        self.place = if n != 0 { self.place + 1 } else { to };
        Outcome::Went
    }

    /// BRNZ.
    #[inline(always)]
    pub fn branch_nonzero(&mut self, to: u32, er: Label, ew: Label, limit: u64) -> Outcome
        requires place { self.old.place < MAX_INSTRUCTIONS }
        requires served { IsServed E.serves self.old.env er ew }
        requires depth { 0 < vec_len self.old.operands }
        ensures took { Took E.env self.old (record { work = Work.Brnz to; er = er; ew = ew }) limit result self.new }
        ensures keeps { Keeps E.serves self.old self.new }
    {
        let fetched = fetch(&mut self.env, self.place, er, ew);
        let Some(n) = self.operands.pop() else {
            unreachable!()
        };
        let Some(end) = pass(self.clock, 1 + fetched, limit) else {
            return Outcome::Late;
        };
        self.clock = end;
        self.place = if n != 0 { to } else { self.place + 1 };
        Outcome::Went
    }

    /// JMP.
    #[inline(always)]
    pub fn jump(&mut self, to: u32, er: Label, ew: Label, limit: u64) -> Outcome
        requires place { self.old.place < MAX_INSTRUCTIONS }
        requires served { IsServed E.serves self.old.env er ew }
        ensures took { Took E.env self.old (record { work = Work.Jmp to; er = er; ew = ew }) limit result self.new }
        ensures keeps { Keeps E.serves self.old self.new }
    {
        let fetched = fetch(&mut self.env, self.place, er, ew);
        let Some(end) = pass(self.clock, 1 + fetched, limit) else {
            return Outcome::Late;
        };
        self.clock = end;
        self.place = to;
        Outcome::Went
    }

    /// SLEEP.
    #[inline(always)]
    pub fn sleep(&mut self, er: Label, ew: Label, limit: u64) -> Outcome
        requires place { self.old.place < MAX_INSTRUCTIONS }
        requires served { IsServed E.serves self.old.env er ew }
        requires depth { 0 < vec_len self.old.operands }
        ensures took { Took E.env self.old (record { work = Work.Sleep; er = er; ew = ew }) limit result self.new }
        ensures keeps { Keeps E.serves self.old self.new }
    {
        let fetched = fetch(&mut self.env, self.place, er, ew);
        let Some(n) = self.operands.pop() else {
            unreachable!()
        };
        let slept = at_least_zero(n);
        let Some(end) = pass(self.clock, 1 + fetched + slept, limit) else {
            return Outcome::Late;
        };
        self.clock = end;
        self.place += 1;
        Outcome::Went
    }

    /// NOP.
    #[inline(always)]
    pub fn nop(&mut self, er: Label, ew: Label, limit: u64) -> Outcome
        requires place { self.old.place < MAX_INSTRUCTIONS }
        requires served { IsServed E.serves self.old.env er ew }
        ensures took { Took E.env self.old (record { work = Work.Nop; er = er; ew = ew }) limit result self.new }
        ensures keeps { Keeps E.serves self.old self.new }
    {
        let fetched = fetch(&mut self.env, self.place, er, ew);
        let Some(end) = pass(self.clock, 1 + fetched, limit) else {
            return Outcome::Late;
        };
        self.clock = end;
        self.place += 1;
        Outcome::Went
    }

    /// HALT.
    #[inline(always)]
    pub fn halt(&mut self, er: Label, ew: Label, limit: u64) -> Outcome
        requires place { self.old.place < MAX_INSTRUCTIONS }
        requires served { IsServed E.serves self.old.env er ew }
        ensures took { Took E.env self.old (record { work = Work.Halt; er = er; ew = ew }) limit result self.new }
        ensures keeps { Keeps E.serves self.old self.new }
    {
        let fetched = fetch(&mut self.env, self.place, er, ew);
        let Some(end) = pass(self.clock, 1 + fetched, limit) else {
            return Outcome::Late;
        };
        self.clock = end;
        Outcome::Halted
    }
}
