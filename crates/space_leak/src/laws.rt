//! What the classes of a space are.

ghost use Rattle.space_leak.specs.Answer.{AllAreWhole};

/// A law: where there are classes, all starts of the space agree for the observer, and the classes are the tally of what
/// the runs from all of them show, each of which has halted.
pub fn classes_are_whole()
    ensures { AllAreWhole }
{}
