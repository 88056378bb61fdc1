//! What printed intervals are, as the contract of a function that does nothing.

ghost use Rattle.leak_numbers.specs.Numbers.{AreNumbersOnce, Enclosed};

/// A law: the two ends that are printed of a number of units of 2^-32 enclose it.
pub fn ends_enclose()
    ensures { Enclosed }
{}

/// A law: what is told of classes of some sizes is one text.
pub fn numbers_are_one()
    ensures { AreNumbersOnce }
{}
