//! Instructions that compute with operands and variables.

ghost use Rattle.std.specs.Prelude.{◌≡◌, ◌+◌, ◌<◌, ◌≤◌, vec_len, vec_capacity};
ghost use Rattle.cycle_machine.specs.Took.{IsServed, Took, Keeps};

use crate::access::{fetch, pass, touch};
use crate::state::{Outcome, State};
use env_contract::env::MachineEnv;
use label_code::code::Work;
use label_code::cost::op_cost;
use label_code::image::MAX_INSTRUCTIONS;
use label_lattice::label::Label;
use mit_syntax::ast::Op;
use mit_syntax::declarations::MAX_CELLS;
use mit_syntax::values::element;

impl<E: MachineEnv> State<E> {
    /// PUSH.
    #[inline(always)]
    pub fn push(&mut self, n: i64, er: Label, ew: Label, limit: u64) -> Outcome
        requires place { self.old.place < MAX_INSTRUCTIONS }
        requires served { IsServed E.serves self.old.env er ew }
        requires room { vec_len self.old.operands < vec_capacity self.old.operands }
        ensures took { Took E.env self.old (record { work = Work.Push n; er = er; ew = ew }) limit result self.new }
        ensures keeps { Keeps E.serves self.old self.new }
    {
        let fetched = fetch(&mut self.env, self.place, er, ew);
        let Some(end) = pass(self.clock, 1 + fetched, limit) else {
            return Outcome::Late;
        };
        self.clock = end;
        self.place += 1;
        self.operands.push_reserved(n);
        Outcome::Went
    }

    /// LOAD.
    #[inline(always)]
    pub fn load(&mut self, x: u32, er: Label, ew: Label, limit: u64) -> Outcome
        requires place { self.old.place < MAX_INSTRUCTIONS }
        requires served { IsServed E.serves self.old.env er ew }
        requires room { vec_len self.old.operands < vec_capacity self.old.operands }
        requires range { x < vec_len self.old.memory }
        requires few { x < MAX_CELLS }
        ensures took { Took E.env self.old (record { work = Work.Load x; er = er; ew = ew }) limit result self.new }
        ensures keeps { Keeps E.serves self.old self.new }
    {
        let fetched = fetch(&mut self.env, self.place, er, ew);
        let touched = touch(&mut self.env, x, er, ew);
        let Some(end) = pass(self.clock, 1 + fetched + touched, limit) else {
            return Outcome::Late;
        };
        self.clock = end;
        self.place += 1;
        self.operands.push_reserved(self.memory[x as usize]);
        Outcome::Went
    }

    /// STORE.
    #[inline(always)]
    pub fn store(&mut self, x: u32, er: Label, ew: Label, limit: u64) -> Outcome
        requires place { self.old.place < MAX_INSTRUCTIONS }
        requires served { IsServed E.serves self.old.env er ew }
        requires depth { 0 < vec_len self.old.operands }
        requires range { x < vec_len self.old.memory }
        requires few { x < MAX_CELLS }
        ensures took { Took E.env self.old (record { work = Work.Store x; er = er; ew = ew }) limit result self.new }
        ensures keeps { Keeps E.serves self.old self.new }
    {
        let fetched = fetch(&mut self.env, self.place, er, ew);
        let Some(n) = self.operands.pop() else {
            unreachable!()
        };
        let touched = touch(&mut self.env, x, er, ew);
        let Some(end) = pass(self.clock, 1 + fetched + touched, limit) else {
            return Outcome::Late;
        };
        self.clock = end;
        self.place += 1;
        self.memory[x as usize] = n;
        Outcome::Wrote(x, n)
    }

    /// LOADX.
    #[inline(always)]
    pub fn load_at(&mut self, first: u32, length: u32, er: Label, ew: Label, limit: u64) -> Outcome
        requires place { self.old.place < MAX_INSTRUCTIONS }
        requires served { IsServed E.serves self.old.env er ew }
        requires depth { 0 < vec_len self.old.operands }
        requires some { 0 < length }
        requires range { first + length ≤ vec_len self.old.memory }
        requires few { first + length ≤ MAX_CELLS }
        ensures took { Took E.env self.old (record { work = Work.LoadAt first length; er = er; ew = ew }) limit result self.new }
        ensures keeps { Keeps E.serves self.old self.new }
    {
        let fetched = fetch(&mut self.env, self.place, er, ew);
        let Some(index) = self.operands.pop() else {
            unreachable!()
        };
        let x = element(first, length, index);
        let n = self.memory[x as usize];
        let touched = touch(&mut self.env, x, er, ew);
        let Some(end) = pass(self.clock, 1 + fetched + touched, limit) else {
            return Outcome::Late;
        };
        self.clock = end;
        self.place += 1;
        self.operands.push_reserved(n);
        Outcome::Went
    }

    /// STOREX.
    #[inline(always)]
    pub fn store_at(&mut self, first: u32, length: u32, er: Label, ew: Label, limit: u64) -> Outcome
        requires place { self.old.place < MAX_INSTRUCTIONS }
        requires served { IsServed E.serves self.old.env er ew }
        requires depth { 1 < vec_len self.old.operands }
        requires some { 0 < length }
        requires range { first + length ≤ vec_len self.old.memory }
        requires few { first + length ≤ MAX_CELLS }
        ensures took { Took E.env self.old (record { work = Work.StoreAt first length; er = er; ew = ew }) limit result self.new }
        ensures keeps { Keeps E.serves self.old self.new }
    {
        let fetched = fetch(&mut self.env, self.place, er, ew);
        let Some(value) = self.operands.pop() else {
            unreachable!()
        };
        let Some(index) = self.operands.pop() else {
            unreachable!()
        };
        let x = element(first, length, index);
        let touched = touch(&mut self.env, x, er, ew);
        let Some(end) = pass(self.clock, 1 + fetched + touched, limit) else {
            return Outcome::Late;
        };
        self.clock = end;
        self.place += 1;
        self.memory[x as usize] = value;
        Outcome::Wrote(x, value)
    }

    /// OP.
    #[inline(always)]
    pub fn apply(&mut self, op: Op, er: Label, ew: Label, limit: u64) -> Outcome
        requires place { self.old.place < MAX_INSTRUCTIONS }
        requires served { IsServed E.serves self.old.env er ew }
        requires depth { 1 < vec_len self.old.operands }
        ensures took { Took E.env self.old (record { work = Work.Apply op; er = er; ew = ew }) limit result self.new }
        ensures keeps { Keeps E.serves self.old self.new }
    {
        let fetched = fetch(&mut self.env, self.place, er, ew);
        let Some(right) = self.operands.pop() else {
            unreachable!()
        };
        let Some(left) = self.operands.pop() else {
            unreachable!()
        };
        let worked = op_cost(op, left, right);
        let Some(end) = pass(self.clock, 1 + fetched + u64::from(worked), limit) else {
            return Outcome::Late;
        };
        self.clock = end;
        self.place += 1;
        self.operands.push_reserved(op.apply(left, right));
        Outcome::Went
    }
}
