//! From a prepared program to the report of an audit.

ghost use Rattle.std.specs.Prelude.{◌≡◌, ℕ, List, IfOk, IfErr, map};
ghost use Rattle.label_lattice.specs.declared.label.Label.{Label};
ghost use Rattle.timing_types.specs.Labelled.{LabelledProgram};
ghost use Rattle.start_file.specs.Starts.{StartValue, seen};
ghost use Rattle.tool_stages.specs.declared.envs.Environment.{Environment};
ghost use Rattle.run_limits.specs.Cycles.{IsCycles};
ghost use Rattle.tool_texts.specs.Ends.{IsStop};
ghost use Rattle.tool_stages.specs.Envs.{hardware_of, ReportsIn, AuditFaultsIn};
ghost use Rattle.tool_stages.specs.Begins.{CanAudit};
ghost use Rattle.audit_stage.specs.Audited.{AuditStops};

use env_contract::env::MachineEnv;
use leak_audit::audit::audit;
use leak_audit::report::{AuditFault, AuditReport};
use mit_syntax::program::Program;
use run_watch::Watch;
use std::alloc::Global;
use tool_stages::envs::MachineMaker;
use tool_stages::in_env;
use tool_stages::laws::makers_tell_as_histories;
use tool_stages::prepared::Prepared;
use tool_stages::setting::Setting;
use tool_texts::lines;
use tool_texts::status::Status;
use tool_texts::stop::{Stop, no_memory};

// Audits in the environments of a maker.
fn audit_in<E: MachineEnv + Drop, M: MachineMaker<E>, W: Watch>(
    alloc: Global,
    maker: &M,
    p: &Prepared,
    setting: Setting,
    watch: &W,
) -> Result<AuditReport, AuditFault>
    requires fit { CanAudit p.now.compiled.typed.labelled p.now.observer p.now.compiled.image (map seen p.now.starts.items) }
    requires cycles { IsCycles setting.budget }
    requires machine { hardware_of setting.env ≡ M.machine maker.now }
    ensures report { IfOk result (ReportsIn setting.env p.now.compiled.typed.labelled p.now.observer.number setting.budget (map seen p.now.starts.items)) }
    ensures fault { IfErr result (AuditFaultsIn setting.env p.now.compiled.typed.labelled p.now.observer.number setting.budget (map seen p.now.starts.items)) }
{
    let (typed, image, starts) = (&p.compiled.typed, &p.compiled.image, p.starts.as_slice());
    image.laws();
    makers_tell_as_histories::<E, M>();
    audit(
        alloc,
        typed,
        image,
        starts,
        p.observer,
        setting.budget,
        maker,
        watch,
    )
}

// Audits in an environment.
fn audit_named<W: Watch>(
    alloc: Global,
    p: &Prepared,
    setting: Setting,
    watch: &W,
) -> Result<AuditReport, AuditFault>
    requires fit { CanAudit p.now.compiled.typed.labelled p.now.observer p.now.compiled.image (map seen p.now.starts.items) }
    requires cycles { IsCycles setting.budget }
    ensures report { IfOk result (ReportsIn setting.env p.now.compiled.typed.labelled p.now.observer.number setting.budget (map seen p.now.starts.items)) }
    ensures fault { IfErr result (AuditFaultsIn setting.env p.now.compiled.typed.labelled p.now.observer.number setting.budget (map seen p.now.starts.items)) }
{
    in_env!(setting.env, maker => audit_in(alloc, maker, p, setting, watch))
}

// The stop for an audit without a report.
fn audit_stop(p: &Program, fault: AuditFault) -> Stop
    ensures { (e : Environment) (t : ℕ) (q : LabelledProgram) (l : Label) (ss : List StartValue) → p.now ≡ q.program → AuditFaultsIn e q l.number t ss fault
        → IsStop (AuditStops e t q l ss) result }
{
    match fault {
        AuditFault::Disagree { run, what } => Stop::With {
            status: Status::Disagree,
            line: lines::report::disagree(p, run, what),
        },
        AuditFault::Unfinished { run, cycle } => Stop::With {
            status: Status::Unfinished,
            line: lines::report::unfinished(run, cycle),
        },
        AuditFault::TooMuch { count } => Stop::With {
            status: Status::TooLong,
            line: lines::report::too_long_events(count),
        },
        AuditFault::Memory => no_memory(),
    }
}

/// The report of an audit in an environment. A watch is told how far each run has come.
///
/// # Errors
/// Stops with `Disagree`, `Unfinished`, `TooLong` or `Memory`.
pub fn audited<W: Watch>(
    alloc: Global,
    p: &Prepared,
    setting: Setting,
    watch: &W,
) -> Result<AuditReport, Stop>
    requires fit { CanAudit p.now.compiled.typed.labelled p.now.observer p.now.compiled.image (map seen p.now.starts.items) }
    requires cycles { IsCycles setting.budget }
    ensures report { IfOk result (ReportsIn setting.env p.now.compiled.typed.labelled p.now.observer.number setting.budget (map seen p.now.starts.items)) }
    ensures stop { IfErr result (IsStop (AuditStops setting.env setting.budget p.now.compiled.typed.labelled p.now.observer (map seen p.now.starts.items))) }
{
    let program = p.compiled.typed.labelled().program();
    match audit_named(alloc, p, setting, watch) {
        Ok(report) => Ok(report),
        Err(fault) => Err(audit_stop(program, fault)),
    }
}
