//! Steps, one after another, to the end of a turn.

ghost use Rattle.std.specs.Prelude.{◌≡◌, ◌≤◌, None, MatchOption, length, vec_len};
ghost use Rattle.cycle_machine.specs.Took.{Stands, Stepped};
ghost use Rattle.cycle_machine.specs.Turned.{Turned, WentOn, is_shown_in, stops};
ghost use Rattle.cycle_machine.specs.Stages.{last_of_stage};

use crate::state::{Outcome, State};
use crate::turn::Turn;
use env_contract::env::MachineEnv;
use label_code::image::Image;
use run_watch::{Watch, Watched};

/// How many cycles a stage has: where a turn comes into another one, a watch is told.
const STAGE: u64 = 1 << 24;

impl<E: MachineEnv> State<E> {
    /// Says nothing at run time: of every state, the length of each vector is that of its elements.
    #[inline(always)]
    pub fn laws(&self)
        ensures operands { vec_len self.now.operands ≡ length self.now.operands.items }
        ensures opened { vec_len self.now.opened ≡ length self.now.opened.items }
        ensures memory { vec_len self.now.memory ≡ length self.now.memory.items }
    {
        let _ = self.operands.as_slice();
        let _ = self.opened.as_slice();
        let _ = self.memory.as_slice();
    }
}

/// One step, if it ends within the limit.
#[inline(always)]
pub fn advance<E: MachineEnv>(image: &Image, state: &mut State<E>, limit: u64) -> Outcome
    requires { Stands E.serves image.now state.old }
    ensures { Stepped E.env E.serves image.now state.old limit result state.new }
{
    state.laws();
    let i = image.at(state.place);
    state.obey(i, limit)
}

// Whether assignments to a variable are shown.
#[inline(always)]
fn is_shown(shown: &[bool], variable: u32) -> bool
    ensures { result ≡ is_shown_in shown.now variable }
{
    match shown.get(variable as usize) {
        Some(is) => *is,
        None => true,
    }
}

// The last cycle of the stage in which a clock stands.
fn last_of_stage(clock: u64) -> u64
    ensures value { result ≡ last_of_stage clock }
    ensures later { clock ≤ result }
{
    (clock - clock % STAGE).saturating_add(STAGE - 1)
}

// Tells a watch how far a turn has come, and answers the last cycle of the stage in which it stands.
fn tell_stage<W: Watch>(clock: u64, limit: u64, watch: &Watched<'_, W>) -> u64
    ensures value { result ≡ last_of_stage clock }
    ensures later { clock ≤ result }
{
    watch.tell(clock, limit);
    last_of_stage(clock)
}

/// Tells a watch where a turn has come into another stage, of 2^24 cycles, than that in which it began.
pub fn tell_turn<W: Watch>(begun: u64, clock: u64, limit: u64, watch: &Watched<'_, W>) {
    if last_of_stage(begun) < clock {
        watch.tell(clock, limit);
    }
}

/// Steps to the end of a turn, past assignments that are not shown, or until the clock is past a cycle. No watch has a
/// part in it: so there is one such loop for each environment, whoever watches, and a step is a part of it.
fn run_stage<E: MachineEnv>(
    image: &Image,
    state: &mut State<E>,
    limit: u64,
    shown: &[bool],
    last: u64,
) -> Option<Turn>
    requires { Stands E.serves image.now state.old }
    ensures { MatchOption result
        (WentOn E.env E.serves image.now shown.now state.old limit last state.new)
        (λ turn. Turned E.env image.now shown.now state.old limit turn state.new × (stops turn ≡ None → Stands E.serves image.now state.new)) }
{
    'stage: while state.clock <= last {
        match advance(image, state, limit) {
            Outcome::Went => {}
            Outcome::Wrote(variable, value) => {
                if is_shown(shown, variable) {
                    return Some(Turn::Event {
                        variable,
                        value,
                        cycle: state.clock,
                    });
                }
            }
            Outcome::Began(mark) => {
                return Some(Turn::Began {
                    mark,
                    cycle: state.clock,
                });
            }
            Outcome::Ended(mark) => {
                return Some(Turn::Ended {
                    mark,
                    cycle: state.clock,
                });
            }
            Outcome::Halted => {
                return Some(Turn::Halted { cycle: state.clock });
            }
            Outcome::Late => {
                return Some(Turn::Limit { cycle: state.clock });
            }
        }
    }
    None
}

/// Steps to the end of a turn, past assignments that are not shown. A watch is told at each step that comes into another
/// stage, of 2^24 cycles, but for the last one.
pub fn run<E: MachineEnv, W: Watch>(
    image: &Image,
    state: &mut State<E>,
    limit: u64,
    shown: &[bool],
    watch: &Watched<'_, W>,
) -> Turn
    requires { Stands E.serves image.now state.old }
    ensures turned { Turned E.env image.now shown.now state.old limit result state.new }
    ensures stands { stops result ≡ None → Stands E.serves image.now state.new }
{
    let mut last = last_of_stage(state.clock);
    'run: loop {
        if let Some(turn) = run_stage(image, state, limit, shown, last) {
            return turn;
        }
        last = tell_stage(state.clock, limit, watch);
    }
}
