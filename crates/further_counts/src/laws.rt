//! Further counts, as contracts of functions that do nothing.

ghost use Rattle.further_counts.specs.Lowered.{LoweredManyAll, LoweredLeavesAgree};
ghost use Rattle.further_counts.specs.Many.{FewMany, SharpManyAll};
ghost use Rattle.further_counts.specs.ManyWorth.{LoweredWorthManyAll};
ghost use Rattle.further_counts.specs.Near.{NearlyReached, TwoLabels};
ghost use Rattle.further_counts.specs.Reached.{GuessReached};
ghost use Rattle.further_counts.specs.Sleeper.{EndTells};
ghost use Rattle.further_counts.specs.Twice.{FewTwice, SharpTwiceAll, LeavesAgree};

use env_contract::env::{LawfulEnv, MachineEnv};
use env_contract::flat::FlatEnv;

/// The count is nearly reached in the flat environment, by one program in each lattice and for each observer to
/// whom some label does not flow: `mitigate (1, high) { sleep h }; l := 1`. It is accepted. Where T has b binary
/// digits, the b - 4 starts h = 2 ^ 2, 2 ^ 3, .., 2 ^ (b - 3) agree for the observer and halt by T, and show
/// b - 4 different sequences.
pub fn nearly_reached_flat()
    ensures reached { NearlyReached
        ⟦<FlatEnv as MachineEnv>⟧.env
        ⟦<FlatEnv as MachineEnv>⟧.serves }
    ensures two { TwoLabels }
{}

/// No smaller number serves for guesses: for each n there are n members of weight 1 that show n views and make up n for
/// whoever has seen the view, and 1 for one who has not.
pub fn guess_reached()
    ensures { GuessReached }
{}

/// Where the end label does not flow to the observer, the cycle of the end is bounded by no count: `sleep h` is
/// accepted and begins no mitigate, so that its sharp count is 1, and any number n of its starts shows n different
/// ends.
pub fn end_tells_flat()
    ensures { EndTells
        ⟦<FlatEnv as MachineEnv>⟧.env
        ⟦<FlatEnv as MachineEnv>⟧.serves }
{}

/// Two views after each other of one secret, of whatever types: if the first shows few, at most n, and after
/// each view the second shows few, at most m, of those that showed it, then both together show at most n * m.
/// Which second view is taken may depend on the first.
pub fn few_twice<X, V, W>()
    ensures { FewTwice X V W }
{}

/// Two runs after each other of one secret X, of one accepted program or of two: the second start is made from
/// the secret and from what the first run showed. Where the first starts agree for the observer, and the second
/// starts of secrets that showed the same agree, the pairs of sequences are few, and so is what they are worth
/// to one who guesses the secret.
///
/// `few`: for runs that halt, at most the product of the sharp counts, and the same for runs that may be cut.
///
/// `left`: what halted runs leave in memory and environment agrees again, so that a second run may go on from it.
pub fn few_sequences_twice<X, E: LawfulEnv>()
    ensures few { SharpTwiceAll X E.env E.serves }
    ensures left { LeavesAgree E.env E.serves }
{}

/// Any number of views after each other of one secret, of whatever types: if each shows few, at most so many, of those
/// that have shown the same before it, then all together show at most the product. Which view is taken next may depend on
/// all that was seen before.
pub fn few_many<X, V>()
    ensures { FewMany X V }
{}

/// Any number of runs after each other of one secret X, each of an accepted program: each start is made from the secret
/// and from all that was seen before. Where the starts of secrets that have shown the same agree, the lists of sequences
/// are few, and so is what they are worth to one who guesses the secret: for runs that halt, at most the product of the
/// sharp counts, and the same for runs that may be cut.
///
/// The secret tells what earlier runs left in memory and environment, so that a start may hold that too; by
/// `few_sequences_twice`, clause `left`, it agrees where it should.
pub fn few_sequences_many<X, E: LawfulEnv>()
    ensures { SharpManyAll X E.env E.serves }
{}

/// The same for the images that `lower` makes of labelled programs over one lattice: `many`. What their halted runs leave
/// in memory and environment agrees where the starts agree: `left`.
pub fn lowered_few_sequences_many<X, E: LawfulEnv>()
    ensures many { LoweredManyAll X E.env E.serves }
    ensures left { LoweredLeavesAgree E.env E.serves }
{}

/// Any number of runs after each other of one secret X, each of an accepted program: each start is made from the secret and from
/// all that was seen before. Where the starts of secrets that have shown the same agree, seeing all runs multiplies what the best
/// of any actions gains by at most the product of their counts, and tells at most the logarithm of that, whatever the secrets
/// weigh and whatever the actions gain.
pub fn lowered_few_worth_many<X, A, E: LawfulEnv>()
    ensures { LoweredWorthManyAll X A E.env E.serves }
{
    lowered_few_sequences_many::<X, E>();
}
