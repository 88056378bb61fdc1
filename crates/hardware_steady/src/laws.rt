//! What a yes is worth on machines, as a contract of a function that does nothing.

ghost use Rattle.std.specs.Prelude.{◌≡◌};
ghost use Rattle.part_tlb.specs.declared.bank.Hardware.{Hardware};
ghost use Rattle.part_tlb.specs.declared.bank.Sharing.TheVariants.{Partitioned};
ghost use Rattle.part_tlb.specs.Machine.{hardware_by_history};
ghost use Rattle.hardware.specs.Limits.{HasBanks};
ghost use Rattle.history_bound.specs.Over.{AnyHistory};
ghost use Rattle.lab_steady.specs.Worth.{YesIsWorth};

use history_bound::laws::histories_keep_the_laws;

/// What a yes of `lab steady` is worth, on every machine with partitions, whatever its sizes and costs: from all starts
/// that agree the image shows the observer one sequence, with its cycles, up to each cycle.
pub fn yes_is_worth_on_machines()
    ensures { (hw : Hardware) → HasBanks hw → hw.sharing ≡ Partitioned → YesIsWorth (hardware_by_history hw) AnyHistory }
{
    histories_keep_the_laws();
}
