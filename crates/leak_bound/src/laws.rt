//! The theorem on timed observations, as contracts of functions that do nothing.

ghost use Rattle.std.specs.Prelude.{◌≡◌, ◌<◌, ℕ, suc, IsTrue, Bool};
ghost use Rattle.label_lattice.specs.Order.{Order};
ghost use Rattle.env_contract.specs.Env.{Env};
ghost use Rattle.leak_bound.specs.Digits.{digits, HasDigits};
ghost use Rattle.leak_bound.specs.Sound.{SoundAll, ShowsOneAll, CutSoundAll};
ghost use Rattle.leak_bound.specs.Source.{LabelsKeepCounts, LoweredSoundAll, LoweredShowsOneAll, LoweredCutSoundAll};
ghost use Rattle.leak_bound.specs.Over.{KeepsLaws, SoundOver, ShowsOneOver, CutSoundOver};

use env_contract::env::{LawfulEnv, MachineEnv};
use env_contract::flat::FlatEnv;

/// Every accepted program is sound in every environment that keeps the laws of `MachineEnv`.
///
/// `halted`: its image does what the program does, in its order. For every observer and every T of at least
/// 1, in any list of starts that agree pairwise and halt by T, as many relevant mitigates begin, K say, and
/// at most (K + 1) ^ (L * b) different sequences are seen, where L counts the labels that do not flow to the
/// observer and b the binary digits of T.
///
/// `quiet`: where no mitigate is relevant, starts that agree show one sequence.
///
/// `cut`: the bound for runs that may not have halted by T, where K is the greatest number of relevant
/// mitigations that end by T in one of them.
pub fn few_sequences<E: LawfulEnv>()
    ensures halted { SoundAll E.env E.serves }
    ensures quiet { ShowsOneAll E.env E.serves }
    ensures cut { CutSoundAll E.env E.serves }
{}

/// The same of every environment, run by the machine or not, whose states are values of a type: where it keeps
/// the laws in the states that pass a test, every accepted program is sound in it. There may be another
/// environment for each lattice.
pub fn few_sequences_of_lawful<S>()
    ensures halted { (v : Order → Env S) (test : Order → S → Bool) → KeepsLaws v (λ order e. IsTrue (test order e))
        → SoundOver v (λ order e. IsTrue (test order e)) }
    ensures quiet { (v : Order → Env S) (test : Order → S → Bool) → KeepsLaws v (λ order e. IsTrue (test order e))
        → ShowsOneOver v (λ order e. IsTrue (test order e)) }
    ensures cut { (v : Order → Env S) (test : Order → S → Bool) → KeepsLaws v (λ order e. IsTrue (test order e))
        → CutSoundOver v (λ order e. IsTrue (test order e)) }
{}

/// What `few_sequences` says, in the flat environment.
pub fn few_sequences_flat()
    ensures halted { SoundAll
        ⟦<FlatEnv as MachineEnv>⟧.env
        ⟦<FlatEnv as MachineEnv>⟧.serves }
    ensures quiet { ShowsOneAll
        ⟦<FlatEnv as MachineEnv>⟧.env
        ⟦<FlatEnv as MachineEnv>⟧.serves }
    ensures cut { CutSoundAll
        ⟦<FlatEnv as MachineEnv>⟧.env
        ⟦<FlatEnv as MachineEnv>⟧.serves }
{
    few_sequences::<FlatEnv>();
}

/// The labels of a program change nothing of what is counted: the same mitigates are relevant in the program that
/// was labelled, and from each memory as many of them begin until it ends.
pub fn labels_keep_counts()
    ensures { LabelsKeepCounts }
{}

/// The theorem for the image that `lower` makes of a labelled program. Its source is the program that was read,
/// without its labels: what the image does, in its order, and how many relevant mitigates begin, are said of that
/// one.
pub fn lowered_few_sequences<E: LawfulEnv>()
    ensures halted { LoweredSoundAll E.env E.serves }
    ensures quiet { LoweredShowsOneAll E.env E.serves }
    ensures cut { LoweredCutSoundAll E.env E.serves }
{}

/// Says nothing at run time: the digits that are computed are binary digits. 0 has none, and a greater number has one
/// more than the greatest power of two that it reaches.
pub fn digits_are()
    ensures zero { digits 0 ≡ 0 }
    ensures some { (t : ℕ) → 0 < t → (d : ℕ) × (digits t ≡ suc d) × HasDigits t d }
{}
