//! What is true of machines, as contracts of functions that do nothing.

ghost use Rattle.std.specs.Prelude.{ℕ, List};
ghost use Rattle.label_lattice.specs.Order.{Order};
ghost use Rattle.env_contract.specs.Alike.{DoesAs};
ghost use Rattle.part_cache.specs.declared.replacement.Replacement.{Replacement};
ghost use Rattle.part_tlb.specs.declared.bank.Hardware.{Hardware};
ghost use Rattle.hardware.specs.Laws.{PartitionedAreLawful, AllReadAndAgree, SharedBreak};
ghost use Rattle.hardware.specs.Limits.{CostsAtMost, IsWithin};
ghost use Rattle.part_tlb.specs.Machine.{hardware_by_history};
ghost use Rattle.hardware.specs.Envs.{machine_env, Keeps};
ghost use Rattle.hardware.specs.Rules.{Rule, IsTold, RuledAreLawful, rule_of, chosen_from, RuleIsMachine, FillsOnAMissBreak};
ghost use Rattle.part_tlb.specs.Named.{flat_machine, part_machine, part2_machine};

/// A machine with partitions keeps the three laws of an environment, whatever its sizes and costs. Every machine keeps
/// two of them. Where all labels share the banks, the law on the write label is broken.
pub fn machines_and_the_laws()
    ensures partitioned { PartitionedAreLawful }
    ensures every { AllReadAndAgree }
    ensures shared { SharedBreak }
{}

/// No access costs more than the sum of the dearest look-ups on its way.
pub fn machines_cost_at_most()
    ensures { (hw : Hardware) → CostsAtMost hw }
{}

/// The three machines that have names are within the limits.
pub fn named_are_within()
    ensures flat { IsWithin flat_machine }
    ensures part { IsWithin part_machine }
    ensures part2 { IsWithin part2_machine }
{}

/// What a machine keeps never shows: its environment does what the history alone does, whether its banks are
/// partitioned or shared.
pub fn machines_do_as_histories()
    ensures { (hw : Hardware) (order : Order) → DoesAs machine_env (hardware_by_history hw order) order.size (Keeps hw order) }
{}

/// A machine with partitions keeps the three laws whatever rule replaces its tags, so long as the parts that are compared
/// tell all that the rule keeps, and whatever else an access touches by its kind and address alone, as the next line. So
/// it is for the rules that banks name, which are what `hardware_by_history` says, and for one that a seed chooses.
pub fn rules_keep_the_laws()
    ensures every { (rule : Rule (List ℕ)) → IsTold rule → RuledAreLawful rule }
    ensures named { (r : Replacement) → RuledAreLawful (rule_of r) }
    ensures chosen { (seed : ℕ) → RuledAreLawful (chosen_from seed) }
    ensures same { (r : Replacement) → RuleIsMachine r }
{}

/// Partitions alone are not enough: where an access touches nothing if its line was found in any partition that it may
/// read, a partition learns what another one holds, and the law of agreement is broken.
pub fn fills_on_a_miss_are_not_lawful()
    ensures { FillsOnAMissBreak }
{}
