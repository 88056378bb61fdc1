//! The lines of all runs, and those of the mitigates after them.

ghost use Rattle.std.specs.Prelude.{◌≡◌, ◌≤◌, ◌⊎◌, OnOk, IsErrOf, length, map, replicate};
ghost use Rattle.tim_base.specs.Faults.{Rose};
ghost use Rattle.mit_syntax.specs.Plan.{mitigates};
ghost use Rattle.mit_syntax.specs.Program.{plan_of};
ghost use Rattle.start_file.specs.Starts.{seen};
ghost use Rattle.run_timeline.specs.Places.{places};
ghost use Rattle.run_timeline.specs.Tallied.{no_tally};
ghost use Rattle.run_limits.specs.Cycles.{IsCycles};
ghost use Rattle.tool_stages.specs.Envs.{hardware_of};
ghost use Rattle.lab_runs.specs.CanRun.{CanRun};
ghost use Rattle.lab_runs.specs.ShownViews.{shown_of};
ghost use Rattle.lab_timeline.specs.Written.{WritesRuns, WritesFew, BreaksFew, WritesAll, BreaksAll};

use crate::laws::timelines_are_the_same;
use crate::write::write_run;
use env_contract::env::MachineEnv;
use lab_runs::fault::RunFault;
use lab_runs::shown::ShownRuns;
use run_timeline::listing::Listing;
use run_timeline::summary::print_summary;
use std::alloc::Global;
use tim_base::sink::Sink;
use tool_stages::envs::MachineMaker;
use tool_stages::in_env;
use tool_stages::laws::makers_tell_as_histories;
use tool_stages::setting::Setting;

// The lines of all runs, in the environments of a maker.
fn write_runs<E: MachineEnv + Drop, M: MachineMaker<E>, W: Sink>(
    alloc: Global,
    maker: &M,
    p: &ShownRuns,
    setting: Setting,
    listing: &mut Listing,
    out: &mut W,
) -> Result<(), RunFault>
    requires fit { CanRun (shown_of p.now.program.labels).labelled p.now.program.observer p.now.program.image (map seen p.now.starts.items) }
    requires cycles { IsCycles setting.budget }
    requires machine { hardware_of setting.env ≡ M.machine maker.now }
    requires places { listing.old.places.items ≡ places (plan_of (shown_of p.now.program.labels).labelled.program) }
    requires none { listing.old.tallies.items ≡ replicate (mitigates (plan_of (shown_of p.now.program.labels).labelled.program)) no_tally }
    ensures text { OnOk result (WritesRuns setting.env setting.budget (shown_of p.now.program.labels).labelled p.now.program.observer p.now.program.image
        (map seen p.now.starts.items) (W.taken out.old) (W.taken out.new) listing.new.tallies.items) }
    ensures some { IsErrOf result RunFault.Memory → WritesFew setting.env setting.budget (shown_of p.now.program.labels).labelled p.now.program.observer
        p.now.program.image (map seen p.now.starts.items) (W.taken out.old) (W.taken out.new) }
    ensures prefix { IsErrOf result RunFault.Sink → BreaksFew setting.env setting.budget (shown_of p.now.program.labels).labelled p.now.program.observer
        p.now.program.image (map seen p.now.starts.items) (W.taken out.old) (W.taken out.new) }
    ensures places { listing.new.places ≡ listing.old.places }
    ensures count { length listing.new.tallies.items ≡ mitigates (plan_of (shown_of p.now.program.labels).labelled.program) }
    ensures fault { IsErrOf result RunFault.Sink → Rose (W.faults out.old) (W.faults out.new) }
    ensures later { W.faults out.old ≤ W.faults out.new }
{
    p.program.image.laws();
    makers_tell_as_histories::<E, M>();
    timelines_are_the_same::<E, M>();
    let starts = p.starts.as_slice();
    for (i, start) in starts.iter().enumerate() {
        match write_run(
            alloc,
            maker,
            &p.program,
            start,
            i as u32 + 1,
            listing,
            setting.budget,
            out,
        ) {
            Ok(()) => {}
            Err(fault) => return Err(fault),
        }
    }
    Ok(())
}

// The lines of all runs, in an environment.
fn write_named<W: Sink>(
    alloc: Global,
    p: &ShownRuns,
    setting: Setting,
    listing: &mut Listing,
    out: &mut W,
) -> Result<(), RunFault>
    requires fit { CanRun (shown_of p.now.program.labels).labelled p.now.program.observer p.now.program.image (map seen p.now.starts.items) }
    requires cycles { IsCycles setting.budget }
    requires places { listing.old.places.items ≡ places (plan_of (shown_of p.now.program.labels).labelled.program) }
    requires none { listing.old.tallies.items ≡ replicate (mitigates (plan_of (shown_of p.now.program.labels).labelled.program)) no_tally }
    ensures text { OnOk result (WritesRuns setting.env setting.budget (shown_of p.now.program.labels).labelled p.now.program.observer p.now.program.image
        (map seen p.now.starts.items) (W.taken out.old) (W.taken out.new) listing.new.tallies.items) }
    ensures some { IsErrOf result RunFault.Memory → WritesFew setting.env setting.budget (shown_of p.now.program.labels).labelled p.now.program.observer
        p.now.program.image (map seen p.now.starts.items) (W.taken out.old) (W.taken out.new) }
    ensures prefix { IsErrOf result RunFault.Sink → BreaksFew setting.env setting.budget (shown_of p.now.program.labels).labelled p.now.program.observer
        p.now.program.image (map seen p.now.starts.items) (W.taken out.old) (W.taken out.new) }
    ensures places { listing.new.places ≡ listing.old.places }
    ensures count { length listing.new.tallies.items ≡ mitigates (plan_of (shown_of p.now.program.labels).labelled.program) }
    ensures fault { IsErrOf result RunFault.Sink → Rose (W.faults out.old) (W.faults out.new) }
    ensures later { W.faults out.old ≤ W.faults out.new }
{
    in_env!(setting.env, maker => write_runs(alloc, maker, p, setting, listing, out))
}

/// Writes the lines of each run, in an environment, one after the other, and then a line for each mitigate
/// of the text. The memory of each run is taken when it begins.
///
/// # Errors
/// `Memory` after the lines of the runs before, or `Sink`, where a prefix of the lines is written.
pub fn write_timelines<W: Sink>(
    alloc: Global,
    p: &ShownRuns,
    setting: Setting,
    out: &mut W,
) -> Result<(), RunFault>
    requires fit { CanRun (shown_of p.now.program.labels).labelled p.now.program.observer p.now.program.image (map seen p.now.starts.items) }
    requires cycles { IsCycles setting.budget }
    ensures text { OnOk result (WritesAll setting.env setting.budget (shown_of p.now.program.labels).labelled p.now.program.observer p.now.program.image
        (map seen p.now.starts.items) (W.taken out.old) (W.taken out.new)) }
    ensures some { IsErrOf result RunFault.Memory → WritesFew setting.env setting.budget (shown_of p.now.program.labels).labelled p.now.program.observer
        p.now.program.image (map seen p.now.starts.items) (W.taken out.old) (W.taken out.new) }
    ensures prefix { IsErrOf result RunFault.Sink
        → BreaksFew setting.env setting.budget (shown_of p.now.program.labels).labelled p.now.program.observer p.now.program.image (map seen p.now.starts.items)
        (W.taken out.old) (W.taken out.new)
        ⊎ BreaksAll setting.env setting.budget (shown_of p.now.program.labels).labelled p.now.program.observer p.now.program.image (map seen p.now.starts.items)
        (W.taken out.old) (W.taken out.new) }
    ensures fault { IsErrOf result RunFault.Sink → Rose (W.faults out.old) (W.faults out.new) }
    ensures later { W.faults out.old ≤ W.faults out.new }
{
    let program = p.program.labels.labelled().program();
    // The call stands for its type: there are fewer than 2^32 mitigates.
    let _count = program.mitigates();
    let Ok(mut listing) = Listing::of(alloc, program) else {
        return Err(RunFault::Memory);
    };
    match write_named(alloc, p, setting, &mut listing, out) {
        Ok(()) => {}
        Err(fault) => return Err(fault),
    }
    match print_summary(&listing, out) {
        Ok(()) => Ok(()),
        Err(_) => Err(RunFault::Sink),
    }
}
