//! What is true of every timeline.

ghost use Rattle.run_timeline.specs.Summary.{LeastFirsts};
ghost use Rattle.run_timeline.specs.Timeline.{TellsTheLog, HasOneTimeline};

use env_contract::env::MachineEnv;

/// A law: without what they say of estimates and lengths, the moments of a run are its log.
pub fn moments_are_the_log<E: MachineEnv>()
    ensures { TellsTheLog E.env }
{}

/// A law: a run has one timeline.
pub fn one_timeline<E: MachineEnv>()
    ensures { HasOneTimeline E.env }
{}

/// A law: the least first prediction that a summary tells is the least that is above the length of each body.
pub fn least_is_least()
    ensures { LeastFirsts }
{}
