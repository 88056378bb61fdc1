//! The runs of code with another first prediction, as the contract of a function that does nothing.

ghost use Rattle.first_image.specs.Tuned.{TunedRuns};

use env_contract::env::MachineEnv;

/// The entries of a run to its halt tell the run of the code in which one mitigate's estimate is another number: it halts
/// with the same memory, and its last cycle and its log are those that replaying the entries with that number comes to.
pub fn tuned_runs<E: MachineEnv>()
    ensures { TunedRuns E.env }
{}
