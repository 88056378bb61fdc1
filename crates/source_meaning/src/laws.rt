//! Steps of a walker, one after another, and what programs have to share to mean the same.

ghost use Rattle.source_meaning.specs.Same.{CommandsMean};
ghost use Rattle.source_meaning.specs.Walked.{StepsGoOn};

/// A law: where a walker stands at the state after n steps of a program, its next step leads to the state after
/// n + 1 steps, and tells what that step adds to what was told.
pub fn steps_go_on()
    ensures { StepsGoOn }
{}

/// A law: labels and what else is written at commands play no part in the meaning. Two programs of the same
/// commands tell the same assignments and the same begun mitigates, in the same order and after the same number
/// of steps, from each memory, and end after the same number of steps.
pub fn commands_mean()
    ensures { CommandsMean }
{}
