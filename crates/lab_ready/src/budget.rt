//! Whether more budget would do.

ghost use Rattle.std.specs.Prelude.{◌≡◌, ◌≤◌, ◌++◌, ℕ, List, IfOk, length, codes, decimal, map};
ghost use Rattle.run_limits.specs.Cycles.{IsCycles};
ghost use Rattle.start_file.specs.Starts.{seen};
ghost use Rattle.tool_stages.specs.Begins.{CanAudit};
ghost use Rattle.lab_ready.specs.Budget.{BudgetTold, enough_line, not_enough_line};

use crate::audit::audit_of;
use event_print::cells::put_number;
use leak_audit::report::AuditFault;
use run_limits::MAX_CYCLES;
use run_watch::Watch;
use std::alloc::Global;
use text_base::pos::Memory;
use tim_base::line::Line;
use tool_stages::prepared::Prepared;
use tool_stages::setting::Setting;

// How often a budget is doubled.
const MOST_TIMES: u32 = 4;

// A budget, and words behind it.
fn budget_line(budget: u64, words: &[u8]) -> Line
    requires { length words.now ≤ 32 }
    ensures { result ≡ codes "a budget of " ++ (decimal budget ++ words.now) }
{
    let mut line = Line::new();
    put_number(&mut line, b"a budget of ", budget);
    line.put_text(words);
    line
}

// A budget with which an audit has a report.
fn enough(budget: u64) -> Line
    ensures { result ≡ enough_line budget }
{
    budget_line(budget, b" is enough\n")
}

// A budget with which it has none.
fn not_enough(budget: u64) -> Line
    ensures { result ≡ not_enough_line budget }
{
    budget_line(budget, b" is not enough\n")
}

/// What is told where some run has not halted by a budget: the first of greater ones with which the audit has a report, or the greatest
/// that was tried. A watch is told how far each run has come.
pub(crate) fn budget_told<W: Watch>(
    alloc: Global,
    p: &Prepared,
    setting: Setting,
    watch: &W,
) -> Result<Line, Memory>
    requires fit { CanAudit p.now.compiled.typed.labelled p.now.observer p.now.compiled.image (map seen p.now.starts.items) }
    requires cycles { IsCycles setting.budget }
    ensures { IfOk result (BudgetTold setting.env p.now.compiled.typed.labelled p.now.observer.number (map seen p.now.starts.items) 4 setting.budget) }
{
    let mut budget = setting.budget;
    let mut left = MOST_TIMES;
    while left > 0 && budget <= MAX_CYCLES / 2 {
        left -= 1;
        budget *= 2;
        let more = Setting {
            env: setting.env,
            budget,
        };
        match audit_of(alloc, p, more, watch) {
            Ok(_) => return Ok(enough(budget)),
            Err(AuditFault::Unfinished { run: _, cycle: _ }) => {}
            Err(AuditFault::Memory) => return Err(Memory),
            Err(AuditFault::TooMuch { count: _ }) => return Ok(not_enough(budget)),
            Err(AuditFault::Disagree { run: _, what: _ }) => return Ok(not_enough(budget)),
        }
    }
    Ok(not_enough(budget))
}
