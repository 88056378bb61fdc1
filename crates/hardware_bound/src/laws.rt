//! What is true of programs on machines, as contracts of functions that do nothing.

ghost use Rattle.std.specs.Prelude.{◌≡◌};
ghost use Rattle.label_lattice.specs.Order.{Order};
ghost use Rattle.code_lower.specs.Follows.{OrderAll};
ghost use Rattle.leak_bound.specs.Over.{SoundOver, ShowsOneOver, CutSoundOver, LoweredSoundOver, LoweredShowsOneOver, LoweredCutSoundOver};
ghost use Rattle.part_tlb.specs.declared.bank.Hardware.{Hardware};
ghost use Rattle.part_tlb.specs.declared.bank.Sharing.TheVariants.{Partitioned};
ghost use Rattle.part_tlb.specs.Machine.{hardware_by_history};
ghost use Rattle.hardware.specs.Limits.{HasBanks};
ghost use Rattle.hardware.specs.Laws.{AnyTouches};

use hardware::laws::machines_and_the_laws;

/// The main theorem on every machine with partitions, whatever its sizes and costs: for runs that halt, for programs
/// without a relevant mitigate, and for runs that may not have halted. On every machine, shared or not, the image of
/// every program does what the program does, in its order.
pub fn few_sequences_on_machines()
    ensures halted { (hw : Hardware) → HasBanks hw → hw.sharing ≡ Partitioned → SoundOver (hardware_by_history hw) AnyTouches }
    ensures quiet { (hw : Hardware) → HasBanks hw → hw.sharing ≡ Partitioned → ShowsOneOver (hardware_by_history hw) AnyTouches }
    ensures cut { (hw : Hardware) → HasBanks hw → hw.sharing ≡ Partitioned → CutSoundOver (hardware_by_history hw) AnyTouches }
    ensures order { (hw : Hardware) (order : Order) → OrderAll (hardware_by_history hw order) }
{
    machines_and_the_laws();
}

/// The same of the image that `lower` makes of a labelled program.
pub fn lowered_few_sequences_on_machines()
    ensures halted { (hw : Hardware) → HasBanks hw → hw.sharing ≡ Partitioned → LoweredSoundOver (hardware_by_history hw) AnyTouches }
    ensures quiet { (hw : Hardware) → HasBanks hw → hw.sharing ≡ Partitioned → LoweredShowsOneOver (hardware_by_history hw) AnyTouches }
    ensures cut { (hw : Hardware) → HasBanks hw → hw.sharing ≡ Partitioned → LoweredCutSoundOver (hardware_by_history hw) AnyTouches }
{
    few_sequences_on_machines();
}
