//! What is true over histories, as contracts of functions that do nothing.

ghost use Rattle.std.specs.Prelude.{◌≡◌, ◌↔◌, ℕ, List};
ghost use Rattle.label_lattice.specs.Order.{Order, lattice_of};
ghost use Rattle.env_contract.specs.Env.{Env};
ghost use Rattle.label_code.specs.Run.{Start};
ghost use Rattle.leak_bound.specs.Sound.{Agree};
ghost use Rattle.env_contract.specs.declared.place.Touch.{Touch};
ghost use Rattle.part_tlb.specs.declared.bank.Hardware.{Hardware};
ghost use Rattle.part_tlb.specs.declared.bank.Sharing.TheVariants.{Partitioned};
ghost use Rattle.part_tlb.specs.Machine.{hardware_by_history};
ghost use Rattle.part_tlb.specs.Named.{flat_machine, part_machine, part2_machine};
ghost use Rattle.hardware.specs.Limits.{HasBanks};
ghost use Rattle.leak_bound.specs.Over.{KeepsLaws, SoundOver, ShowsOneOver, CutSoundOver, LoweredSoundOver, LoweredShowsOneOver, LoweredCutSoundOver};
ghost use Rattle.history_bound.specs.Over.{AnyHistory, CostsAtMost, OrderOver};
ghost use Rattle.history_bound.specs.Held.{AgreeInHeld};
ghost use Rattle.history_bound.specs.Told.{TellsAs};
ghost use Rattle.history_bound.specs.Runs.{RunsByHistory};

use env_contract::env::MachineEnv;
use hardware::laws::{machines_and_the_laws, machines_cost_at_most, named_are_within};
use part_tlb::by_history::ByHistory;

/// Every machine with partitions keeps the three laws of an environment, from every history and for every lattice,
/// whatever its sizes and costs. So do the three that have names, and no access on them costs more than 32 cycles, or 62
/// where there are two levels. Without caches none costs anything.
pub fn histories_keep_the_laws()
    ensures every { (hw : Hardware) → HasBanks hw → hw.sharing ≡ Partitioned → KeepsLaws (hardware_by_history hw) AnyHistory }
    ensures no_level { KeepsLaws (hardware_by_history flat_machine) AnyHistory }
    ensures no_level_cost { CostsAtMost (hardware_by_history flat_machine) 0 }
    ensures one_level { KeepsLaws (hardware_by_history part_machine) AnyHistory }
    ensures one_level_cost { CostsAtMost (hardware_by_history part_machine) 32 }
    ensures two_levels { KeepsLaws (hardware_by_history part2_machine) AnyHistory }
    ensures two_levels_cost { CostsAtMost (hardware_by_history part2_machine) 62 }
{
    machines_and_the_laws();
    machines_cost_at_most();
    named_are_within();
}

/// The main theorem where a look back into the history says what accesses cost. Every accepted program is sound in every
/// environment whose state is the history and that keeps the laws, whatever accesses cost there: for runs that halt, for
/// programs without a relevant mitigate, and for runs that may not have halted; and the image of every program does what
/// the program does, in its order, in every environment whose state is the history.
pub fn few_sequences_of_histories()
    ensures halted { (v : Order → Env (List Touch)) → KeepsLaws v AnyHistory → SoundOver v AnyHistory }
    ensures quiet { (v : Order → Env (List Touch)) → KeepsLaws v AnyHistory → ShowsOneOver v AnyHistory }
    ensures cut { (v : Order → Env (List Touch)) → KeepsLaws v AnyHistory → CutSoundOver v AnyHistory }
    ensures order { (v : Order → Env (List Touch)) → OrderOver v }
{}

/// The same of the image that `lower` makes of a labelled program. Its source is the program that was read, without its
/// labels.
pub fn lowered_few_sequences_of_histories()
    ensures halted { (v : Order → Env (List Touch)) → KeepsLaws v AnyHistory → LoweredSoundOver v AnyHistory }
    ensures quiet { (v : Order → Env (List Touch)) → KeepsLaws v AnyHistory → LoweredShowsOneOver v AnyHistory }
    ensures cut { (v : Order → Env (List Touch)) → KeepsLaws v AnyHistory → LoweredCutSoundOver v AnyHistory }
{
    few_sequences_of_histories();
}

/// Starts agree over histories exactly where the variables that flow to the observer have equal values, and
/// each set of each partition whose label flows to it holds the same tags, in the same order of their last
/// touches, in each bank of the machine.
pub fn agreement_is_what_is_held()
    ensures { (hw : Hardware) → HasBanks hw → (order : Order) (g : ℕ → ℕ) (o : ℕ) (s s' : Start (List Touch)) →
        Agree (hardware_by_history hw order) (lattice_of order) (AnyHistory order) g o s s' ↔ AgreeInHeld hw order (lattice_of order) g o s s' }
{}

/// What is told of starts in the environments of a maker is told of the starts over the histories that they stand for:
/// whether they agree, whether they halt, what an observer sees, and how many relevant mitigates begin and end.
pub fn rows_tell_as_histories<E: MachineEnv, M: ByHistory<E>>()
    ensures { (maker : M) → TellsAs E.env E.serves (M.by_history maker) AnyHistory (M.stands maker) }
{}

/// What a run does and when it does it is told by histories alone: from any memory, any touches and to any
/// T, the machine comes to where the machine comes to whose environment is the list of touches so far, with the same
/// clock, memory, misses and log; and its environment stands for the list at the end.
pub fn runs_do_as_histories<E: MachineEnv, M: ByHistory<E>>()
    ensures { (maker : M) → RunsByHistory E.env (M.stands maker) (M.made maker) (M.by_history maker) }
{}
