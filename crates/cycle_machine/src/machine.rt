ghost use Rattle.std.specs.Prelude.{◌≡◌, [], None, length, IfOk, IfSome};
ghost use Rattle.label_code.specs.Machine.{start};
ghost use Rattle.label_code.specs.Shaped.{IsShaped};
ghost use Rattle.cycle_machine.specs.Seen.{seen};
ghost use Rattle.cycle_machine.specs.Turned.{CallWent, IsStop};

use crate::run::{run, tell_turn};
use crate::state::State;
use crate::turn::Turn;
use doubling_schedule::misses::MissTable;
use env_contract::env::MachineEnv;
use label_code::image::Image;
use run_watch::{Nobody, RunNumber, Watch, Watched};
use std::alloc::Global;
use std::marker::Model;
use text_base::pos::Memory;

/// A machine that runs an image over an environment. Once it has halted or come to a limit it is stopped.
#[derive(Drop)]
pub struct Machine<'a, E: MachineEnv> {
    image: &'a Image,
    state: State<E>,
    stopped: Option<Turn>,
}

impl<'a, E: MachineEnv> Model for Machine<'a, E> {
    ghost use Rattle.std.specs.Prelude.{◌≡◌, None, IfSome};
    ghost use Rattle.cycle_machine.specs.Took.{Stands};
    ghost use Rattle.cycle_machine.specs.Turned.{Loaded, IsStop};

    ghost Value = { Loaded E };

    ghost view = { λ m. record { code = m.image.now; state = m.state; stopped = m.stopped } };

    ghost invariant = { λ m. (m.stopped ≡ None → Stands E.serves m.image.now m.state) × IfSome m.stopped IsStop };
}

impl<'a, E: MachineEnv + Drop> Machine<'a, E> {
    /// A machine at the start of an image, with a value for each variable and the state of the environment.
    /// Takes all memory of the run. Fails only for want of memory.
    pub fn load(
        alloc: Global,
        image: &'a Image,
        memory: Vec<i64>,
        env: E,
    ) -> Result<Machine<'a, E>, Memory>
        requires values { length memory.items ≡ image.now.variables }
        requires serves { E.serves image.now.order env }
        ensures start { IfOk result (λ m. seen m.state ≡ start memory.items env) }
        ensures code { IfOk result (λ m. m.code ≡ image.now) }
        ensures going { IfOk result (λ m. m.stopped ≡ None) }
    {
        image.laws();
        let operands = Vec::with_capacity(alloc, image.operands() as usize)?;
        let opened = Vec::with_capacity(alloc, image.nesting() as usize)?;
        Ok(Machine {
            image,
            state: State {
                place: 0,
                operands,
                memory,
                opened,
                misses: MissTable::new(),
                env,
                clock: 0,
            },
            stopped: None,
        })
    }

    /// Says nothing at run time: what is true of every machine.
    pub fn laws(&self)
        ensures shaped { IsShaped self.now.code }
        ensures stopped { IfSome self.now.stopped IsStop }
    {
        self.image.laws();
    }

    /// Takes steps until a variable gets a value, a mitigation begins or ends, HALT is done, or the next step
    /// would end after the limit, and answers which it was. After HALT or a limit the machine is stopped: each
    /// later call gives the same answer, whatever its limit. Takes no memory, and at most as many steps as the
    /// limit has cycles.
    pub fn next(&mut self, limit: u64) -> Turn
        ensures { CallWent E.env [] limit self.old result self.new }
    {
        let only = RunNumber { run: 1, runs: 1 };
        self.next_shown(limit, &[], &Watched::new(&Nobody, only))
    }

    /// The same, but goes past each assignment to a variable of which the list says, by its number, that its
    /// assignments are not shown. A watch is told each time that the clock has come past a multiple of 2^24.
    pub fn next_shown<W: Watch>(
        &mut self,
        limit: u64,
        shown: &[bool],
        watch: &Watched<'_, W>,
    ) -> Turn
        ensures { CallWent E.env shown.now limit self.old result self.new }
    {
        if let Some(turn) = self.stopped {
            return turn;
        }
        let begun = self.state.clock;
        let turn = run(self.image, &mut self.state, limit, shown, watch);
        tell_turn(begun, self.state.clock, limit, watch);
        match turn {
            Turn::Halted { .. } | Turn::Limit { .. } => {
                self.stopped = Some(turn);
            }
            _ => {}
        }
        turn
    }
}
