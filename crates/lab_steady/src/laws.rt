//! What is true of every answer.

ghost use Rattle.history_bound.specs.Over.{AnyHistory};
ghost use Rattle.tool_words.specs.declared.words.EnvName.{EnvName};
ghost use Rattle.tool_stages.specs.declared.envs.Environment.{Environment};
ghost use Rattle.tool_stages.specs.Envs.{environment};
ghost use Rattle.lab_steady.specs.Complete.{HasOneSteady};
ghost use Rattle.lab_steady.specs.Worth.{YesIsWorth};

use env_contract::env::LawfulEnv;
use steady_program::laws::steady_programs;
use tool_stages::laws::partitioned_keep_the_laws;

/// A law: where the answer is a yes, the file holds a program, and from all starts that agree its image shows the observer
/// one sequence, with its cycles, up to each cycle, in every environment that keeps the laws of `MachineEnv`, whether or
/// not the runs have halted. With `--whole` the runs are also at one place and one clock at each cycle.
pub fn yes_is_worth<E: LawfulEnv>()
    ensures { YesIsWorth (λ _. E.env) E.serves }
{
    steady_programs::<E>();
}

/// A law: the same in each environment that `--env` names.
pub fn yes_is_worth_in_named()
    ensures { (e : EnvName) → YesIsWorth (environment (Environment.Named e)) AnyHistory }
{
    partitioned_keep_the_laws();
}

/// A law: where the file is told to hold bytes and its count of faults did not rise, the answer is one status and one
/// text.
pub fn one_steady()
    ensures { HasOneSteady }
{}
