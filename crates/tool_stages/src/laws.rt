//! What is true of every accepted program, and of every environment of runs.

ghost use Rattle.leak_bound.specs.Over.{KeepsLaws};
ghost use Rattle.part_tlb.specs.Machine.{hardware_by_history};
ghost use Rattle.history_bound.specs.Over.{AnyHistory, history_made};
ghost use Rattle.history_reports.specs.Reports.{RunsTellAlike, AuditsTellAlike};
ghost use Rattle.tool_words.specs.declared.words.EnvName.{EnvName};
ghost use Rattle.tool_stages.specs.declared.envs.Environment.{Environment};
ghost use Rattle.tool_stages.specs.Envs.{IsPartitioned, environment};
ghost use Rattle.tool_stages.specs.Accepted.{TypedAreSound};

use crate::envs::MachineMaker;
use env_contract::env::MachineEnv;
use history_bound::laws::{histories_keep_the_laws, lowered_few_sequences_of_histories};
use history_reports::laws::reports_are_the_same;

/// A law: each environment of a machine with partitions keeps the three laws of an environment, and each that `--env` names
/// is one.
pub fn partitioned_keep_the_laws()
    ensures laws { (e : Environment) → IsPartitioned e → KeepsLaws (environment e) AnyHistory }
    ensures named { (e : EnvName) → IsPartitioned (Environment.Named e) }
{
    histories_keep_the_laws();
}

/// A law: in each environment of a machine with partitions, and with each labelling that types a program, the image does
/// what the program does, and of starts that agree for an observer few different sequences are seen.
pub fn typed_are_sound()
    ensures { TypedAreSound }
{
    partitioned_keep_the_laws();
    lowered_few_sequences_of_histories();
}

/// A law: what runs and audits tell in the environments of a maker is what its machine says, partitioned or shared.
pub fn makers_tell_as_histories<E: MachineEnv, M: MachineMaker<E>>()
    ensures runs { (maker : M) → RunsTellAlike E.env (M.made maker) (hardware_by_history (M.machine maker)) history_made }
    ensures audits { (maker : M) → AuditsTellAlike E.env (M.made maker) (hardware_by_history (M.machine maker)) history_made E.serves AnyHistory }
{
    reports_are_the_same::<E, M>();
}
