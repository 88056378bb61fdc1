//! The lines of all runs.

ghost use Rattle.std.specs.Prelude.{◌≡◌, ◌≤◌, OnOk, IsErrOf, Some, map};
ghost use Rattle.std.specs.Io.KnownBytes.{Appends};
ghost use Rattle.tim_base.specs.Faults.{Rose};
ghost use Rattle.tim_base.specs.Sinks.{AppendsPrefix};
ghost use Rattle.label_code.specs.Run.{run_from};
ghost use Rattle.start_file.specs.Starts.{seen, IsFor};
ghost use Rattle.cycle_machine.specs.Rest.{told_by};
ghost use Rattle.leak_audit.specs.Agreement.{start_of};
ghost use Rattle.tool_stages.specs.Envs.{hardware_of};
ghost use Rattle.lab_runs.specs.CanRun.{CanRun};
ghost use Rattle.lab_runs.specs.Runs.{texts, WritesSome};
ghost use Rattle.lab_runs.specs.ShownViews.{shown_of};
ghost use Rattle.lab_seen.specs.Seen.{line_text, line_in};

use crate::line::write_line;
use crate::load::load;
use env_contract::env::MachineEnv;
use env_contract::make::MakeEnv;
use lab_runs::fault::RunFault;
use lab_runs::shown::ShownRuns;
use label_lattice::label::Label;
use start_file::start::Start;
use std::alloc::Global;
use tim_base::sink::Sink;
use tool_stages::envs::MachineMaker;
use tool_stages::in_env;
use tool_stages::laws::makers_tell_as_histories;
use tool_stages::setting::Setting;

// The line of the run from a start, in the environment that a maker makes.
fn run_line<E: MachineEnv + Drop, M: MakeEnv<E>, W: Sink>(
    alloc: Global,
    maker: &M,
    p: &ShownRuns,
    observer: Label,
    start: &Start,
    number: u32,
    budget: u64,
    out: &mut W,
) -> Result<(), RunFault>
    requires fit { CanRun (shown_of p.now.program.labels).labelled (Some observer) p.now.program.image (map seen p.now.starts.items) }
    requires start { IsFor (shown_of p.now.program.labels).labelled.program (seen start.now) }
    ensures text { OnOk result (Appends (W.taken out.old) (W.taken out.new) (line_text (shown_of p.now.program.labels).labelled observer number
        (told_by (run_from E.env p.now.program.image.instrs budget (start_of (M.made maker.now) (shown_of p.now.program.labels).labelled.program.order
        (seen start.now)))))) }
    ensures memory { IsErrOf result RunFault.Memory → W.taken out.new ≡ W.taken out.old }
    ensures prefix { IsErrOf result RunFault.Sink → AppendsPrefix (W.taken out.old) (W.taken out.new)
        (line_text (shown_of p.now.program.labels).labelled observer number
        (told_by (run_from E.env p.now.program.image.instrs budget (start_of (M.made maker.now) (shown_of p.now.program.labels).labelled.program.order
        (seen start.now))))) }
    ensures fault { IsErrOf result RunFault.Sink → Rose (W.faults out.old) (W.faults out.new) }
    ensures later { W.faults out.old ≤ W.faults out.new }
{
    let labelled = p.program.labels.labelled();
    let Ok(mut machine) = load(alloc, maker, labelled, &p.program.image, start) else {
        return Err(RunFault::Memory);
    };
    match write_line(
        &mut machine,
        labelled,
        observer,
        number,
        p.starts.len(),
        budget,
        out,
    ) {
        Ok(()) => Ok(()),
        Err(_) => Err(RunFault::Sink),
    }
}

// The lines of all runs, in the environments of a maker.
fn run_lines<E: MachineEnv + Drop, M: MachineMaker<E>, W: Sink>(
    alloc: Global,
    maker: &M,
    p: &ShownRuns,
    observer: Label,
    setting: Setting,
    out: &mut W,
) -> Result<(), RunFault>
    requires fit { CanRun (shown_of p.now.program.labels).labelled (Some observer) p.now.program.image (map seen p.now.starts.items) }
    requires machine { hardware_of setting.env ≡ M.machine maker.now }
    ensures text { OnOk result (Appends (W.taken out.old) (W.taken out.new)
        (texts (line_in setting.env setting.budget (shown_of p.now.program.labels).labelled observer p.now.program.image) (map seen p.now.starts.items))) }
    ensures some { IsErrOf result RunFault.Memory → WritesSome (W.taken out.old) (W.taken out.new)
        (line_in setting.env setting.budget (shown_of p.now.program.labels).labelled observer p.now.program.image) (map seen p.now.starts.items) }
    ensures prefix { IsErrOf result RunFault.Sink → AppendsPrefix (W.taken out.old) (W.taken out.new)
        (texts (line_in setting.env setting.budget (shown_of p.now.program.labels).labelled observer p.now.program.image) (map seen p.now.starts.items)) }
    ensures fault { IsErrOf result RunFault.Sink → Rose (W.faults out.old) (W.faults out.new) }
    ensures later { W.faults out.old ≤ W.faults out.new }
{
    p.program.image.laws();
    makers_tell_as_histories::<E, M>();
    let starts = p.starts.as_slice();
    for (i, start) in starts.iter().enumerate() {
        match run_line(
            alloc,
            maker,
            p,
            observer,
            start,
            i as u32 + 1,
            setting.budget,
            out,
        ) {
            Ok(()) => {}
            Err(fault) => return Err(fault),
        }
    }
    Ok(())
}

/// Writes the line of each run, in an environment, one after the other. The memory of each run is taken
/// when it begins.
///
/// # Errors
/// `Memory` after the lines of the runs before, or `Sink`, where a prefix of all lines is written.
pub fn write_lines<W: Sink>(
    alloc: Global,
    p: &ShownRuns,
    observer: Label,
    setting: Setting,
    out: &mut W,
) -> Result<(), RunFault>
    requires fit { CanRun (shown_of p.now.program.labels).labelled (Some observer) p.now.program.image (map seen p.now.starts.items) }
    ensures text { OnOk result (Appends (W.taken out.old) (W.taken out.new)
        (texts (line_in setting.env setting.budget (shown_of p.now.program.labels).labelled observer p.now.program.image) (map seen p.now.starts.items))) }
    ensures some { IsErrOf result RunFault.Memory → WritesSome (W.taken out.old) (W.taken out.new)
        (line_in setting.env setting.budget (shown_of p.now.program.labels).labelled observer p.now.program.image) (map seen p.now.starts.items) }
    ensures prefix { IsErrOf result RunFault.Sink → AppendsPrefix (W.taken out.old) (W.taken out.new)
        (texts (line_in setting.env setting.budget (shown_of p.now.program.labels).labelled observer p.now.program.image) (map seen p.now.starts.items)) }
    ensures fault { IsErrOf result RunFault.Sink → Rose (W.faults out.old) (W.faults out.new) }
    ensures later { W.faults out.old ≤ W.faults out.new }
{
    in_env!(setting.env, maker => run_lines(alloc, maker, p, observer, setting, out))
}
