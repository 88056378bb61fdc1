//! Turns, one after another, are a run to a limit.

ghost use Rattle.cycle_machine.specs.Reached.{TurnsGoOn, QuietGoesOn, LimitIsRun, HaltIsRun};

use env_contract::env::MachineEnv;

/// A law: where turns have come from a start to a state, the next turn goes on from there, and adds to the log the
/// assignments that it passed, and its event.
pub fn turns_go_on<E: MachineEnv>()
    ensures { TurnsGoOn E.env }
{}

/// A law: where turns have come from a start to a state, quiet steps go on from there, and add to the log the
/// assignments that they passed.
pub fn quiet_goes_on<E: MachineEnv>()
    ensures { QuietGoesOn E.env }
{}

/// A law: where turns have come to a state whose next step ends after the limit, the run to the limit is there,
/// with their events in its log.
pub fn limit_is_run<E: MachineEnv>()
    ensures { LimitIsRun E.env }
{}

/// A law: where turns have come to HALT, the run to the limit has halted there, with their events in its log.
pub fn halt_is_run<E: MachineEnv>()
    ensures { HaltIsRun E.env }
{}
