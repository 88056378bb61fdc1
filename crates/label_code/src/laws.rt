//! What is true of every run, as the contract of a function that does nothing.

ghost use Rattle.label_code.specs.OneRun.{HasOneRun};

use env_contract::env::MachineEnv;

/// A law: from each start and up to each cycle a run comes to one machine and no other, and that is the
/// computed one.
pub fn one_run<E: MachineEnv>()
    ensures { HasOneRun E.env }
{}
