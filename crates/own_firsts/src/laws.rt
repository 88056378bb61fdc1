//! The count by own first predictions, as contracts of functions that do nothing.

ghost use Rattle.own_firsts.specs.Count.{OwnIsEnough, OwnExample};
ghost use Rattle.own_firsts.specs.Own.{SharpOwnAll, LoweredOwnAll};
ghost use Rattle.own_firsts.specs.Ways.{OwnWaysAre};

use env_contract::env::LawfulEnv;

/// Each mitigation counts with its own first prediction: where no relevant mitigate of an accepted program stands in another,
/// starts that agree and halt by T show at most as many sequences as there are ways in which their mitigations can end. A way
/// gives, for each level, as many miss counts as relevant mitigations of it begin, which never fall; and over all levels the
/// `e * 2 ^ m` add up to at most T, where e is the first prediction of the mitigation at that place, and at least 1.
///
/// Nor is seeing the run worth more to one who guesses the start. Where the end label flows to the observer, the same holds of
/// who sees the end of the run too.
pub fn few_sequences_own<E: LawfulEnv>()
    ensures { SharpOwnAll E.env E.serves }
{}

/// The same for the image that `lower` makes of a labelled program. Its source is the program that was read, without its
/// labels.
pub fn lowered_few_sequences_own<E: LawfulEnv>()
    ensures { LoweredOwnAll E.env E.serves }
{}

/// There is a list of these ways: `are`. How many there are, as a number: at most the product over the levels of the number of lists of miss counts that never
/// fall, in which each mitigation ends by T on its own. That product is at most the sharp count: `few`.
///
/// Two mitigations of one level with first predictions 2 and 16 have at most 10 ways to end by cycle 200, where the sharp count
/// is 28: `example`.
pub fn own_ways_are_few()
    ensures are { OwnWaysAre }
    ensures few { OwnIsEnough }
    ensures example { OwnExample }
{}
