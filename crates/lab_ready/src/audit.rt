//! Audits of a prepared program.

ghost use Rattle.std.specs.Prelude.{◌≡◌, IfOk, IfErr, map};
ghost use Rattle.run_limits.specs.Cycles.{IsCycles};
ghost use Rattle.start_file.specs.Starts.{seen};
ghost use Rattle.tool_stages.specs.Begins.{CanAudit};
ghost use Rattle.tool_stages.specs.Envs.{hardware_of, ReportsIn, AuditFaultsIn};

use env_contract::env::MachineEnv;
use leak_audit::audit::audit;
use leak_audit::report::{AuditFault, AuditReport};
use run_watch::Watch;
use std::alloc::Global;
use tool_stages::envs::MachineMaker;
use tool_stages::in_env;
use tool_stages::laws::makers_tell_as_histories;
use tool_stages::prepared::Prepared;
use tool_stages::setting::Setting;

// Audits in the environments of a maker.
fn audit_in<E: MachineEnv + Drop, M: MachineMaker<E>, W: Watch>(
    alloc: Global,
    maker: &M,
    p: &Prepared,
    setting: Setting,
    watch: &W,
) -> Result<AuditReport, AuditFault>
    requires fit { CanAudit p.now.compiled.typed.labelled p.now.observer p.now.compiled.image (map seen p.now.starts.items) }
    requires cycles { IsCycles setting.budget }
    requires machine { hardware_of setting.env ≡ M.machine maker.now }
    ensures report { IfOk result (ReportsIn setting.env p.now.compiled.typed.labelled p.now.observer.number setting.budget (map seen p.now.starts.items)) }
    ensures fault { IfErr result (AuditFaultsIn setting.env p.now.compiled.typed.labelled p.now.observer.number setting.budget (map seen p.now.starts.items)) }
{
    let (typed, image, starts) = (&p.compiled.typed, &p.compiled.image, p.starts.as_slice());
    image.laws();
    makers_tell_as_histories::<E, M>();
    audit(
        alloc,
        typed,
        image,
        starts,
        p.observer,
        setting.budget,
        maker,
        watch,
    )
}

/// The report of an audit in an environment, or why there is none. A watch is told how far each run has come.
pub(crate) fn audit_of<W: Watch>(
    alloc: Global,
    p: &Prepared,
    setting: Setting,
    watch: &W,
) -> Result<AuditReport, AuditFault>
    requires fit { CanAudit p.now.compiled.typed.labelled p.now.observer p.now.compiled.image (map seen p.now.starts.items) }
    requires cycles { IsCycles setting.budget }
    ensures report { IfOk result (ReportsIn setting.env p.now.compiled.typed.labelled p.now.observer.number setting.budget (map seen p.now.starts.items)) }
    ensures fault { IfErr result (AuditFaultsIn setting.env p.now.compiled.typed.labelled p.now.observer.number setting.budget (map seen p.now.starts.items)) }
{
    in_env!(setting.env, maker => audit_in(alloc, maker, p, setting, watch))
}
