//! The text of a refused program, which runs by its least labels.

ghost use Rattle.std.specs.Prelude.{◌≡◌, ◌≤◌, ◌++◌, ℕ, List, Some, IfOk, IfErr, map, length};
ghost use Rattle.std.proofs.Common.{inl, inr};
ghost use Rattle.label_lattice.specs.declared.label.Label.{Label as LabelValue};
ghost use Rattle.timing_types.specs.Labelled.{LabelledProgram};
ghost use Rattle.start_file.specs.Starts.{StartValue, seen};
ghost use Rattle.run_limits.specs.Cycles.{IsCycles};
ghost use Rattle.tool_texts.specs.Ends.{IsStop};
ghost use Rattle.tool_texts.specs.declared.status.Status.TheVariants as status;
ghost use Rattle.tool_stages.specs.declared.envs.Environment.{Environment};
ghost use Rattle.tool_stages.specs.Begins.{CanAudit};
ghost use Rattle.tool_stages.specs.Envs.{hardware_of, AuditFaultsIn};
ghost use Rattle.audit_stage.specs.Audited.{AuditStops};
ghost use Rattle.lab_runs.specs.Shown.{head_line};
ghost use Rattle.space_starts.specs.Space.{seen as seen_space};
ghost use Rattle.space_stage.specs.Given.{value_of};
ghost use Rattle.space_leak.specs.Answer.{CanWalk};
ghost use Rattle.lab_leak.specs.Answer.{CanLeakOf, HasOpenLeak};
ghost use Rattle.lab_leak.specs.Views.{open_shown, HasClassesIn, IsOpenTold};

use crate::head::put_open;
use crate::lines::with_classes;
use crate::sheet::Sheet;
use crate::sizes::sizes;
use env_contract::env::MachineEnv;
use lab_runs::least::write_refusal;
use label_code::image::Image;
use label_lattice::label::Label;
use leak_audit::report::AuditFault;
use leak_numbers::numbers::put_numbers;
use machine_stage::lines as machine;
use mit_syntax::program::Program;
use open_audit::audit::open_audit;
use run_watch::Watch;
use space_leak::leak::space_leak;
use space_stage::given::StartSet;
use space_starts::space::Space;
use start_file::start::Start;
use std::alloc::Global;
use text_base::pos::Memory;
use tim_base::line::Line;
use timing_types::labelled::Labelled;
use tool_stages::envs::MachineMaker;
use tool_stages::in_env;
use tool_stages::laws::makers_tell_as_histories;
use tool_stages::setting::Setting;
use tool_texts::lines;
use tool_texts::status::Status;
use tool_texts::stop::{Stop, no_memory};

// The classes of runs, in the environments of a maker.
fn audit_in<E: MachineEnv + Drop, M: MachineMaker<E>, W: Watch>(
    alloc: Global,
    maker: &M,
    p: &Labelled,
    image: &Image,
    observer: Label,
    starts: &[Start],
    setting: Setting,
    watch: &W,
) -> Result<Vec<u32>, AuditFault>
    requires fit { CanAudit p.now observer image.now (map seen starts.now) }
    requires cycles { IsCycles setting.budget }
    requires machine { hardware_of setting.env ≡ M.machine maker.now }
    ensures report { IfOk result (λ k. HasClassesIn setting.env p.now observer.number setting.budget (map seen starts.now) k.items) }
    ensures fault { IfErr result (AuditFaultsIn setting.env p.now observer.number setting.budget (map seen starts.now)) }
{
    image.laws();
    makers_tell_as_histories::<E, M>();
    open_audit(
        alloc,
        p,
        image,
        starts,
        observer,
        setting.budget,
        maker,
        watch,
    )
}

// The classes of runs, in an environment.
fn audit_named<W: Watch>(
    alloc: Global,
    p: &Labelled,
    image: &Image,
    observer: Label,
    starts: &[Start],
    setting: Setting,
    watch: &W,
) -> Result<Vec<u32>, AuditFault>
    requires fit { CanAudit p.now observer image.now (map seen starts.now) }
    requires cycles { IsCycles setting.budget }
    ensures report { IfOk result (λ k. HasClassesIn setting.env p.now observer.number setting.budget (map seen starts.now) k.items) }
    ensures fault { IfErr result (AuditFaultsIn setting.env p.now observer.number setting.budget (map seen starts.now)) }
{
    in_env!(setting.env, maker => audit_in(alloc, maker, p, image, observer, starts, setting, watch))
}

// The stop for runs of which there is no report.
fn audit_stop(p: &Program, fault: AuditFault) -> Stop
    ensures { (e : Environment) (t : ℕ) (q : LabelledProgram) (l : LabelValue) (ss : List StartValue) → p.now ≡ q.program
        → AuditFaultsIn e q l.number t ss fault → IsStop (AuditStops e t q l ss) result }
{
    match fault {
        AuditFault::Disagree { run, what } => Stop::With {
            status: Status::Disagree,
            line: lines::report::disagree(p, run, what),
        },
        AuditFault::Unfinished { run, cycle } => Stop::With {
            status: Status::Unfinished,
            line: lines::report::unfinished(run, cycle),
        },
        AuditFault::TooMuch { count } => Stop::With {
            status: Status::TooLong,
            line: lines::report::too_long_events(count),
        },
        AuditFault::Memory => no_memory(),
    }
}

// The text of runs of which there are these classes.
fn told_text(
    alloc: Global,
    p: &Labelled,
    image: &Image,
    observer: Label,
    starts: &[Start],
    setting: Setting,
    classes: &[u32],
) -> Result<Vec<u8>, Memory>
    requires fit { CanAudit p.now observer image.now (map seen starts.now) }
    requires few { length classes.now ≤ 4096 }
    requires reported { HasClassesIn setting.env p.now observer.number setting.budget (map seen starts.now) classes.now }
    ensures { IfOk result (λ v. IsOpenTold setting.env setting.budget p.now observer (map seen starts.now) v.items) }
{
    let found = sizes(alloc, classes)?;
    let mut text = Vec::new(alloc);
    machine::put_head(&mut text, setting.env)?;
    let runs = starts.len() as u64;
    put_open(
        &mut text,
        p.program().lattice(),
        observer,
        setting.budget,
        runs,
    )?;
    put_numbers(&mut text, runs, found.sizes.as_slice())?;
    let whole = with_classes(alloc, p, image, observer, starts, setting, &found, text)?;
    Ok(whole)
}

// The text of a list of starts.
fn list_text<W: Watch>(
    alloc: Global,
    p: &Labelled,
    image: &Image,
    observer: Label,
    starts: &[Start],
    setting: Setting,
    watch: &W,
) -> Result<Vec<u8>, Stop>
    requires fit { CanAudit p.now observer image.now (map seen starts.now) }
    requires cycles { IsCycles setting.budget }
    ensures text { IfOk result (λ v. IsOpenTold setting.env setting.budget p.now observer (map seen starts.now) v.items) }
    ensures stop { IfErr result (IsStop (AuditStops setting.env setting.budget p.now observer (map seen starts.now))) }
{
    let classes = match audit_named(alloc, p, image, observer, starts, setting, watch) {
        Ok(classes) => classes,
        Err(fault) => return Err(audit_stop(p.program(), fault)),
    };
    match told_text(
        alloc,
        p,
        image,
        observer,
        starts,
        setting,
        classes.as_slice(),
    ) {
        Ok(text) => Ok(text),
        Err(_) => Err(no_memory()),
    }
}

// A text below the line that a program is refused.
fn below(alloc: Global, refusal: &Line, text: &[u8]) -> Result<Vec<u8>, Memory>
    ensures { IfOk result (λ v. v.items ≡ head_line refusal.now ++ text.now) }
{
    let mut out = Sheet {
        text: Vec::new(alloc),
        faults: 0,
    };
    match write_refusal(refusal, &mut out) {
        Ok(()) => {}
        Err(_) => return Err(Memory),
    }
    out.text.extend_from_slice(text)?;
    Ok(out.text)
}

// The text of a list of starts, below that line.
fn open_list<W: Watch>(
    alloc: Global,
    p: &Labelled,
    refusal: &Line,
    image: &Image,
    observer: Label,
    starts: &[Start],
    setting: Setting,
    watch: &W,
) -> Result<Vec<u8>, Stop>
    requires fit { CanAudit p.now observer image.now (map seen starts.now) }
    requires cycles { IsCycles setting.budget }
    ensures text { IfOk result (λ v. HasOpenLeak setting.env setting.budget (open_shown p.now refusal.now) (Some observer) (inl (map seen starts.now))
        status.Done v.items) }
    ensures stop { IfErr result (IsStop (HasOpenLeak setting.env setting.budget (open_shown p.now refusal.now) (Some observer)
        (inl (map seen starts.now)))) }
{
    let text = match list_text(alloc, p, image, observer, starts, setting, watch) {
        Ok(text) => text,
        Err(stop) => return Err(stop),
    };
    match below(alloc, refusal, text.as_slice()) {
        Ok(whole) => Ok(whole),
        Err(_) => Err(no_memory()),
    }
}

// The text of a space of starts, below that line.
fn open_space<W: Watch>(
    alloc: Global,
    p: &Labelled,
    refusal: &Line,
    image: &Image,
    observer: Label,
    space: &Space,
    setting: Setting,
    watch: &W,
) -> Result<Vec<u8>, Stop>
    requires fit { CanWalk p.now observer image.now (seen_space space.now) }
    requires cycles { IsCycles setting.budget }
    ensures text { IfOk result (λ v. HasOpenLeak setting.env setting.budget (open_shown p.now refusal.now) (Some observer) (inr (seen_space space.now))
        status.Done v.items) }
    ensures stop { IfErr result (IsStop (HasOpenLeak setting.env setting.budget (open_shown p.now refusal.now) (Some observer)
        (inr (seen_space space.now)))) }
{
    let text = match space_leak(alloc, p, image, observer, space, setting, watch) {
        Ok(text) => text,
        Err(stop) => return Err(stop),
    };
    match below(alloc, refusal, text.as_slice()) {
        Ok(whole) => Ok(whole),
        Err(_) => Err(no_memory()),
    }
}

/// The text of a program that no labels type, with the line of its refusal, and of what a start file gives. A watch is told how far
/// each run has come.
///
/// # Errors
/// Stops with `Disagree`, `Unfinished`, `TooLong` or `Memory`.
pub(crate) fn open_text<W: Watch>(
    alloc: Global,
    p: &Labelled,
    refusal: &Line,
    image: &Image,
    observer: Label,
    given: StartSet,
    setting: Setting,
    watch: &W,
) -> Result<Vec<u8>, Stop>
    requires fit { CanLeakOf p.now observer image.now (value_of given) }
    requires cycles { IsCycles setting.budget }
    ensures text { IfOk result (λ v. HasOpenLeak setting.env setting.budget (open_shown p.now refusal.now) (Some observer) (value_of given) status.Done
        v.items) }
    ensures stop { IfErr result (IsStop (HasOpenLeak setting.env setting.budget (open_shown p.now refusal.now) (Some observer) (value_of given))) }
{
    match given {
        StartSet::List(starts) => {
            let list = starts.as_slice();
            match open_list(alloc, p, refusal, image, observer, list, setting, watch) {
                Ok(text) => Ok(text),
                Err(stop) => Err(stop),
            }
        }
        StartSet::Space(space) => {
            match open_space(alloc, p, refusal, image, observer, &space, setting, watch) {
                Ok(text) => Ok(text),
                Err(stop) => Err(stop),
            }
        }
    }
}
