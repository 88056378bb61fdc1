//! First predictions with the same miss counts, as the contract of a function that does nothing.

ghost use Rattle.first_walk.specs.Between.{ToldBetween};

/// A law: where a run has the same miss counts with two first predictions of one mitigate, all others being kept, it has
/// them with each one between, and ends no earlier with that one than with the lower of the two. It holds wherever
/// mitigations begin, in each other too.
pub fn told_between()
    ensures { ToldBetween }
{}
