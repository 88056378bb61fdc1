//! Any instruction of the machine.

ghost use Rattle.std.specs.Prelude.{◌≡◌, ◌+◌, ◌≤◌};
ghost use Rattle.cycle_machine.specs.Took.{IsServed, Took, Keeps};
ghost use Rattle.cycle_machine.specs.Took.{Fits};

use crate::state::{Outcome, State};
use env_contract::env::MachineEnv;
use label_code::code::{Instr, Work};

impl<E: MachineEnv> State<E> {
    /// The instruction, if it ends within the limit.
    #[inline(always)]
    pub fn obey(&mut self, i: Instr, limit: u64) -> Outcome
        requires fits { Fits i self.old }
        requires served { IsServed E.serves self.old.env i.er i.ew }
        ensures took { Took E.env self.old i limit result self.new }
        ensures keeps { Keeps E.serves self.old self.new }
    {
        match i.work {
            Work::Push(n) => self.push(n, i.er, i.ew, limit),
            Work::Load(x) => self.load(x, i.er, i.ew, limit),
            Work::Store(x) => self.store(x, i.er, i.ew, limit),
            Work::LoadAt { first, length } => self.load_at(first, length, i.er, i.ew, limit),
            Work::StoreAt { first, length } => self.store_at(first, length, i.er, i.ew, limit),
            Work::Apply(op) => self.apply(op, i.er, i.ew, limit),
            Work::Brz(to) => self.branch_zero(to, i.er, i.ew, limit),
            Work::Brnz(to) => self.branch_nonzero(to, i.er, i.ew, limit),
            Work::Jmp(to) => self.jump(to, i.er, i.ew, limit),
            Work::Sleep => self.sleep(i.er, i.ew, limit),
            Work::Mitb { level, mark } => self.begin(level, mark, i.er, i.ew, limit),
            Work::Mite => self.end(i.er, i.ew, limit),
            Work::Nop => self.nop(i.er, i.ew, limit),
            Work::Halt => self.halt(i.er, i.ew, limit),
        }
    }
}
