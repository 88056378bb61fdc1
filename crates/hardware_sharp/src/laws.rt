//! The sharp count on machines, as a contract of a function that does nothing.

ghost use Rattle.std.specs.Prelude.{◌≡◌};
ghost use Rattle.sharp_history.specs.Over.{LoweredSharpOver, LoweredSharpCutOver, LoweredSharpEndOver, LoweredSharedOver, LoweredOwnOver};
ghost use Rattle.part_tlb.specs.declared.bank.Hardware.{Hardware};
ghost use Rattle.part_tlb.specs.declared.bank.Sharing.TheVariants.{Partitioned};
ghost use Rattle.part_tlb.specs.Machine.{hardware_by_history};
ghost use Rattle.hardware.specs.Limits.{HasBanks};
ghost use Rattle.hardware.specs.Laws.{AnyTouches};

use hardware::laws::machines_and_the_laws;

/// The sharp count on every machine with partitions, for the image that `lower` makes of a labelled program.
pub fn lowered_few_sequences_sharp_on_machines()
    ensures halted { (hw : Hardware) → HasBanks hw → hw.sharing ≡ Partitioned → LoweredSharpOver (hardware_by_history hw) AnyTouches }
    ensures cut { (hw : Hardware) → HasBanks hw → hw.sharing ≡ Partitioned → LoweredSharpCutOver (hardware_by_history hw) AnyTouches }
    ensures ended { (hw : Hardware) → HasBanks hw → hw.sharing ≡ Partitioned → LoweredSharpEndOver (hardware_by_history hw) AnyTouches }
    ensures shared { (hw : Hardware) → HasBanks hw → hw.sharing ≡ Partitioned → LoweredSharedOver (hardware_by_history hw) AnyTouches }
{
    machines_and_the_laws();
}

/// The count by own first predictions, there: it says what `lowered_few_sequences_own` says.
pub fn lowered_few_sequences_own_on_machines()
    ensures { (hw : Hardware) → HasBanks hw → hw.sharing ≡ Partitioned → LoweredOwnOver (hardware_by_history hw) AnyTouches }
{
    machines_and_the_laws();
}
