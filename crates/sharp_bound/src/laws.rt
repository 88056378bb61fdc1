//! The sharper count, as a contract of a function that does nothing.

ghost use Rattle.sharp_bound.specs.End.{SharpEndAll};
ghost use Rattle.sharp_bound.specs.Firsts.{AtLeastOne};
ghost use Rattle.sharp_bound.specs.Lowered.{LoweredSharpAll, LoweredSharpCutAll, LoweredSharpEndAll, LoweredSharedAll};
ghost use Rattle.sharp_bound.specs.Sharp.{SharpSoundAll, SharpCutAll};
ghost use Rattle.sharp_bound.specs.Shared.{SharpSharedAll};

use env_contract::env::{LawfulEnv, MachineEnv};
use env_contract::flat::FlatEnv;

/// Every accepted program shows few sequences in every environment that keeps the laws of `MachineEnv`: at
/// most the product, over the levels, of the number of lists that never fall of as many miss counts as
/// relevant mitigations of the level begin.
///
/// Nor is seeing the run worth more to one who guesses the start: it multiplies the greatest weight by at most
/// that number.
///
/// `halted`: for runs that halt by T. Where the relevant mitigations of a level that these runs begin have a first
/// prediction of e or more, and at least 1, there are as many miss counts as T div e has binary digits. The product is at
/// most (K + 1) ^ (L * (b - 1)), where K counts the relevant mitigates that begin and b the binary digits of T.
///
/// `cut`: for runs that may not have halted by T, miss counts of one more value, and the greatest number of
/// relevant mitigations of each level that end by T in one of them. The product is at most the bound of
/// `few_sequences`.
///
/// `ended`: the same of the sequences with the cycle of the end added, where the program's end label flows to the
/// observer.
pub fn few_sequences_sharp<E: LawfulEnv>()
    ensures halted { SharpSoundAll E.env E.serves }
    ensures cut { SharpCutAll E.env E.serves }
    ensures ended { SharpEndAll E.env E.serves }
{}

/// The same for the image that `lower` makes of a labelled program. Its source is the program that was read, without
/// its labels: how many relevant mitigates begin, and with which first predictions, is said of that one.
pub fn lowered_few_sequences_sharp<E: LawfulEnv>()
    ensures halted { LoweredSharpAll E.env E.serves }
    ensures cut { LoweredSharpCutAll E.env E.serves }
    ensures ended { LoweredSharpEndAll E.env E.serves }
    ensures shared { LoweredSharedAll E.env E.serves }
{}

/// The same for what `lower` makes of a labelled program, in the flat environment.
pub fn lowered_few_sequences_sharp_flat()
    ensures halted { LoweredSharpAll
        ⟦<FlatEnv as MachineEnv>⟧.env
        ⟦<FlatEnv as MachineEnv>⟧.serves }
    ensures cut { LoweredSharpCutAll
        ⟦<FlatEnv as MachineEnv>⟧.env
        ⟦<FlatEnv as MachineEnv>⟧.serves }
    ensures ended { LoweredSharpEndAll
        ⟦<FlatEnv as MachineEnv>⟧.env
        ⟦<FlatEnv as MachineEnv>⟧.serves }
    ensures shared { LoweredSharedAll
        ⟦<FlatEnv as MachineEnv>⟧.env
        ⟦<FlatEnv as MachineEnv>⟧.serves }
{
    lowered_few_sequences_sharp::<FlatEnv>();
}

/// Time is shared: where no relevant mitigate of an accepted program stands in another, starts that agree and halt by T
/// show at most as many sequences as there are choices of miss counts, for each level as many as relevant mitigations of
/// it begin, that never fall and whose `e * 2 ^ m` add up to at most T. `ways_are_few` says that these are no more than
/// the sharp count.
pub fn few_sequences_shared<E: LawfulEnv>()
    ensures { SharpSharedAll E.env E.serves }
{}

/// Each first prediction is at least 1, so that the sharp count holds for every program with as many miss counts as T
/// has binary digits.
pub fn first_predictions<M, L>()
    ensures { AtLeastOne M L }
{}

/// The same in the flat environment.
pub fn few_sequences_sharp_flat()
    ensures halted { SharpSoundAll
        ⟦<FlatEnv as MachineEnv>⟧.env
        ⟦<FlatEnv as MachineEnv>⟧.serves }
    ensures cut { SharpCutAll
        ⟦<FlatEnv as MachineEnv>⟧.env
        ⟦<FlatEnv as MachineEnv>⟧.serves }
    ensures ended { SharpEndAll
        ⟦<FlatEnv as MachineEnv>⟧.env
        ⟦<FlatEnv as MachineEnv>⟧.serves }
{
    few_sequences_sharp::<FlatEnv>();
}
