//! What is true of every timeline, and of every answer.

ghost use Rattle.part_tlb.specs.Machine.{hardware_by_history};
ghost use Rattle.history_bound.specs.Over.{history_made};
ghost use Rattle.lab_timeline.specs.Alike.{TimelinesTellAlike};
ghost use Rattle.lab_timeline.specs.Once.{HasOneTimelines};

use env_contract::env::MachineEnv;
use tool_stages::envs::MachineMaker;

/// A law: what a run in the environments of a maker tells of its mitigations is what its machine says.
pub fn timelines_are_the_same<E: MachineEnv, M: MachineMaker<E>>()
    ensures { (maker : M) → TimelinesTellAlike E.env (M.made maker) (hardware_by_history (M.machine maker)) history_made }
{}

/// A law: where both files are told to hold bytes and no count of their faults rose, the answer of `timeline` is one
/// status and one text.
pub fn one_timeline()
    ensures { HasOneTimelines }
{}
