//! `cut`: how many different sequences an observer can tell apart by a cycle, whether or not the runs have halted.

ghost use Rattle.std.specs.Prelude.{◌≡◌, ℕ, List, Some, IfOk, IfErr, map, ◌∷◌, []};
ghost use Rattle.tim_base.specs.Kept.{KeepsFiles, NoCountFalls};
ghost use Rattle.tim_base.specs.Faults.{Rose};
ghost use Rattle.label_lattice.specs.declared.label.Label.{Label};
ghost use Rattle.timing_types.specs.Labelled.{LabelledProgram};
ghost use Rattle.start_file.specs.Starts.{StartValue, seen};
ghost use Rattle.tool_words.specs.declared.words.EnvName.{EnvName};
ghost use Rattle.run_limits.specs.Cycles.{IsCycles};
ghost use Rattle.tool_words.specs.WordsAsked.{cut};
ghost use Rattle.tool_texts.specs.Ends.{IsStop};
ghost use Rattle.tool_stages.specs.declared.envs.Environment.{Environment};
ghost use Rattle.tool_stages.specs.Envs.{machine_of, CutReportsIn, CutFaultsIn};
ghost use Rattle.tool_stages.specs.Begins.{CanAudit};
ghost use Rattle.tool_stages.specs.Fetches.{Fetches};
ghost use Rattle.mit_tool.specs.Audited.{CutStops, HasCut};
ghost use Rattle.mit_tool.specs.Commands.{IsAnswer};

use cut_audit::cut::cut;
use cut_audit::report::{CutFault, CutReport};
use env_contract::env::MachineEnv;
use mit_syntax::program::Program;
use run_watch::Watch;
use std::alloc::Global;
use tim_base::shelf::Shelf;
use tool_stages::envs::MachineMaker;
use tool_stages::in_named;
use tool_stages::laws::makers_tell_as_histories;
use tool_stages::prepared::{Prepared, prepare};
use tool_stages::setting::NamedSetting;
use tool_texts::lines;
use tool_texts::pieces::audits::put_cut;
use tool_texts::status::Status;
use tool_texts::stop::{Stop, no_memory};

// Audits runs that may not have halted in the environments of a maker, which have the name.
fn cut_in<E: MachineEnv + Drop, M: MachineMaker<E>, W: Watch>(
    alloc: Global,
    maker: &M,
    p: &Prepared,
    setting: NamedSetting,
    watch: &W,
) -> Result<CutReport, CutFault>
    requires fit { CanAudit p.now.compiled.typed.labelled p.now.observer p.now.compiled.image (map seen p.now.starts.items) }
    requires cycles { IsCycles setting.budget }
    requires machine { machine_of setting.env ≡ M.machine maker.now }
    ensures report { IfOk result (CutReportsIn (Environment.Named setting.env) p.now.compiled.typed.labelled p.now.observer.number setting.budget
        (map seen p.now.starts.items)) }
    ensures fault { IfErr result (CutFaultsIn (Environment.Named setting.env) p.now.compiled.typed.labelled p.now.observer.number setting.budget
        (map seen p.now.starts.items)) }
{
    let (typed, image, starts) = (&p.compiled.typed, &p.compiled.image, p.starts.as_slice());
    image.laws();
    makers_tell_as_histories::<E, M>();
    cut(
        alloc,
        typed,
        image,
        starts,
        p.observer,
        setting.budget,
        maker,
        watch,
    )
}

// Audits runs that may not have halted in the environment of a name.
fn cut_named<W: Watch>(
    alloc: Global,
    p: &Prepared,
    setting: NamedSetting,
    watch: &W,
) -> Result<CutReport, CutFault>
    requires fit { CanAudit p.now.compiled.typed.labelled p.now.observer p.now.compiled.image (map seen p.now.starts.items) }
    requires cycles { IsCycles setting.budget }
    ensures report { IfOk result (CutReportsIn (Environment.Named setting.env) p.now.compiled.typed.labelled p.now.observer.number setting.budget
        (map seen p.now.starts.items)) }
    ensures fault { IfErr result (CutFaultsIn (Environment.Named setting.env) p.now.compiled.typed.labelled p.now.observer.number setting.budget
        (map seen p.now.starts.items)) }
{
    in_named!(setting.env, maker => cut_in(alloc, maker, p, setting, watch))
}

// The stop for an audit without a report.
fn cut_stop(p: &Program, fault: CutFault) -> Stop
    ensures { (e : EnvName) (t : ℕ) (q : LabelledProgram) (l : Label) (ss : List StartValue) → p.now ≡ q.program
        → CutFaultsIn (Environment.Named e) q l.number t ss fault
        → IsStop (CutStops e t q l ss) result }
{
    match fault {
        CutFault::Disagree { run, what } => Stop::With {
            status: Status::Disagree,
            line: lines::report::disagree(p, run, what),
        },
        CutFault::TooMuch { count } => Stop::With {
            status: Status::TooLong,
            line: lines::report::too_long_events(count),
        },
        CutFault::Memory => no_memory(),
    }
}

// The lines of an audit's report.
fn cut_report<W: Watch>(
    alloc: Global,
    p: &Prepared,
    setting: NamedSetting,
    watch: &W,
) -> Result<Vec<u8>, Stop>
    requires fit { CanAudit p.now.compiled.typed.labelled p.now.observer p.now.compiled.image (map seen p.now.starts.items) }
    requires cycles { IsCycles setting.budget }
    ensures text { IfOk result (λ v. HasCut setting.env setting.budget p.now.compiled.typed.labelled (Some p.now.observer) (map seen p.now.starts.items)
        Status.Done v.items) }
    ensures stop { IfErr result (IsStop (HasCut setting.env setting.budget p.now.compiled.typed.labelled (Some p.now.observer) (map seen p.now.starts.items))) }
{
    let program = p.compiled.typed.labelled().program();
    let report = match cut_named(alloc, p, setting, watch) {
        Ok(report) => report,
        Err(fault) => return Err(cut_stop(program, fault)),
    };
    let order = program.lattice();
    let mut text = Vec::new(alloc);
    match put_cut(&mut text, order, p.observer, setting.budget, &report) {
        Ok(()) => Ok(text),
        Err(_) => Err(no_memory()),
    }
}

/// The text of an audit of the program of a file from the starts of another one, up to a budget in cycles. A watch
/// is told how far each run has come.
///
/// # Errors
/// Stops with the first refusal, or with `Memory`.
pub fn cut_text<S: Shelf, W: Watch>(
    alloc: Global,
    shelf: &mut S,
    file: &str,
    starts: &str,
    name: &str,
    setting: NamedSetting,
    watch: &W,
) -> Result<Vec<u8>, Stop>
    requires { IsCycles setting.budget }
    ensures same { KeepsFiles (S.content shelf.old) (S.content shelf.new) }
    ensures later { NoCountFalls (S.faults shelf.old) (S.faults shelf.new) }
    ensures log { Fetches (file.now ∷ starts.now ∷ []) (S.log shelf.old) (S.log shelf.new) result }
    ensures text { IfOk result (λ v. IsAnswer (λ name. Rose (S.faults shelf.old name) (S.faults shelf.new name)) (S.content shelf.old)
        (cut file.now starts.now name.now setting.env setting.budget) Status.Done v.items) }
    ensures stop { IfErr result (IsStop (IsAnswer (λ name. Rose (S.faults shelf.old name) (S.faults shelf.new name)) (S.content shelf.old)
        (cut file.now starts.now name.now setting.env setting.budget))) }
{
    let prepared = match prepare(alloc, shelf, file, starts, name) {
        Ok(prepared) => prepared,
        Err(stop) => return Err(stop),
    };
    match cut_report(alloc, &prepared, setting, watch) {
        Ok(text) => Ok(text),
        Err(stop) => Err(stop),
    }
}
