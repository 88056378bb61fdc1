//! An audit of cut runs has one answer, as the contract of a function that does nothing.

ghost use Rattle.cut_audit.specs.Report.{AnswersOnceAll};

use env_contract::env::MachineEnv;

/// Of the runs of any list of starts, in any environment, an audit has one answer: one report, or one fault
/// other than want of memory.
pub fn one_report<E: MachineEnv>()
    ensures { AnswersOnceAll E.env E.serves }
{}
