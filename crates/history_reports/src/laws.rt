//! What is told in an environment is told over histories, as the contract of a function that does nothing.

ghost use Rattle.history_bound.specs.Over.{AnyHistory, history_made};
ghost use Rattle.history_reports.specs.Reports.{RunsTellAlike, AuditsTellAlike};

use env_contract::env::MachineEnv;
use part_tlb::by_history::ByHistory;

/// What runs and audits tell in the environments of a maker is what they tell over histories.
///
/// `runs`: a run in the environment that touches made and the run over the history of the touches tell the same
/// events, and end alike in the same cycle.
///
/// `audits`: of the starts of a program and for an observer, the starts in the environment agree pairwise exactly where
/// those over histories do, as many assignments are shown, and the reports and faults of both audits, of runs
/// that halt and of runs that may not have, are the same.
pub fn reports_are_the_same<E: MachineEnv, M: ByHistory<E>>()
    ensures runs { (maker : M) → RunsTellAlike E.env (M.made maker) (M.by_history maker) history_made }
    ensures audits { (maker : M) → AuditsTellAlike E.env (M.made maker) (M.by_history maker) history_made E.serves AnyHistory }
{}
