//! What is told of an audit.

ghost use Rattle.std.specs.Prelude.{◌≡◌, ◌++◌, Some, IfOk, codes, map};
ghost use Rattle.mit_syntax.specs.Plan.{count, mitigates};
ghost use Rattle.mit_syntax.specs.Program.{plan_of};
ghost use Rattle.run_limits.specs.Cycles.{IsCycles};
ghost use Rattle.start_file.specs.Starts.{seen};
ghost use Rattle.tool_stages.specs.Begins.{CanAudit};
ghost use Rattle.tool_texts.specs.Texts.{accepted_line, number_line};
ghost use Rattle.tool_texts.specs.Reports.{disagree_line};
ghost use Rattle.lab_ready.specs.Answer.{AuditTold, most_shown, ready_line};
ghost use Rattle.lab_ready.specs.Differs.{differs_lines};

use crate::audit::audit_of;
use crate::budget::budget_told;
use crate::differs::differs;
use lab_why::faulty::joined;
use lab_why::starts::Told;
use leak_audit::report::AuditFault;
use leak_audit::what::What;
use run_watch::Watch;
use std::alloc::Global;
use text_base::pos::Memory;
use tim_base::line::Line;
use timing_types::labelled::Labelled;
use tool_stages::prepared::Prepared;
use tool_stages::setting::Setting;
use tool_texts::lines::report::{disagree, too_long_events, unfinished};
use tool_texts::lines::{accepted, number};
use tool_texts::status::Status;

// How many assignments all runs together may show.
fn most_shown() -> &'static [u8]
    ensures { result.now ≡ most_shown }
{
    b"expected at most 16777216\n"
}

// That nothing stops an audit.
fn ready_line() -> &'static [u8]
    ensures { result.now ≡ ready_line }
{
    b"ready for an audit: all agree\n"
}

// A status, a line, and what stands behind it.
fn told(alloc: Global, status: Status, line: &Line, more: &[u8]) -> Result<Told, Memory>
    ensures status { IfOk result (λ x. x.status ≡ status) }
    ensures text { IfOk result (λ x. x.text.items ≡ line.now ++ more.now) }
{
    Ok(Told {
        status,
        text: joined(alloc, line.bytes(), more)?,
    })
}

// The text where an audit has a report.
fn ready(alloc: Global, q: &Labelled, starts: usize) -> Result<Vec<u8>, Memory>
    ensures { IfOk result (λ v. v.items ≡ accepted_line (count (plan_of q.now.program)) (mitigates (plan_of q.now.program))
        ++ (number_line (codes "starts ") starts ++ ready_line)) }
{
    let runs = number(b"starts ", starts as u64);
    let rest = joined(alloc, runs.bytes(), ready_line())?;
    let line = accepted(q.program().commands(), q.program().mitigates());
    joined(alloc, line.bytes(), rest.as_slice())
}

// What is told of two starts that do not agree.
fn apart(alloc: Global, p: &Prepared, run: u32, what: What) -> Result<Told, Memory>
    ensures status { IfOk result (λ x. x.status ≡ Status.Disagree) }
    ensures text { IfOk result (λ x. x.text.items ≡ disagree_line p.now.compiled.typed.labelled.program run what
        ++ differs_lines p.now.compiled.typed.labelled p.now.observer (map seen p.now.starts.items) run what) }
{
    let q = p.compiled.typed.labelled();
    let more = differs(alloc, q, p.observer, p.starts.as_slice(), run, what)?;
    let line = disagree(q.program(), run, what);
    told(alloc, Status::Disagree, &line, more.as_slice())
}

/// What is told of an audit of a prepared program: that nothing stops it, or what does. A watch is told how far each run has come.
///
/// # Errors
/// `Memory` is want of memory.
pub(crate) fn audit_told<W: Watch>(
    alloc: Global,
    p: &Prepared,
    setting: Setting,
    watch: &W,
) -> Result<Told, Memory>
    requires fit { CanAudit p.now.compiled.typed.labelled p.now.observer p.now.compiled.image (map seen p.now.starts.items) }
    requires cycles { IsCycles setting.budget }
    ensures { IfOk result (λ x. AuditTold setting.env setting.budget p.now.compiled.typed.labelled (Some p.now.observer) (map seen p.now.starts.items)
        x.status x.text.items) }
{
    match audit_of(alloc, p, setting, watch) {
        Ok(_) => {
            let text = ready(alloc, p.compiled.typed.labelled(), p.starts.len())?;
            Ok(Told {
                status: Status::Done,
                text,
            })
        }
        Err(AuditFault::Disagree { run, what }) => apart(alloc, p, run, what),
        Err(AuditFault::Unfinished { run, cycle }) => {
            let more = budget_told(alloc, p, setting, watch)?;
            told(
                alloc,
                Status::Unfinished,
                &unfinished(run, cycle),
                more.bytes(),
            )
        }
        Err(AuditFault::TooMuch { count }) => {
            told(
                alloc,
                Status::TooLong,
                &too_long_events(count),
                most_shown(),
            )
        }
        Err(AuditFault::Memory) => Err(Memory),
    }
}
