//! The text of `leak`.

ghost use Rattle.std.specs.Prelude.{◌≡◌, ◌∷◌, [], Some, false, IfOk, IfErr, map, OnOk, IsTrue};
ghost use Rattle.tim_base.specs.Kept.{KeepsFiles, NoCountFalls};
ghost use Rattle.tim_base.specs.Faults.{Rose};
ghost use Rattle.start_file.specs.Starts.{seen};
ghost use Rattle.run_limits.specs.Cycles.{IsCycles};
ghost use Rattle.tool_texts.specs.Ends.{IsStop, status_of};
ghost use Rattle.tool_texts.specs.declared.status.Status.TheVariants as status;
ghost use Rattle.tool_stages.specs.Begins.{CanAudit};
ghost use Rattle.tool_stages.specs.Accepted.{is_past_typing, IsAccepted};
ghost use Rattle.tool_stages.specs.Fetches.{Fetches};
ghost use Rattle.tool_stages.specs.Envs.{hardware_of, ReportsIn};
ghost use Rattle.lab_bound.specs.Text.{TextPut};
ghost use Rattle.space_stage.specs.Given.{value_of};
ghost use Rattle.lab_runs.specs.ShownViews.{shown_of};
ghost use Rattle.lab_leak.specs.Answer.{HasLeak, HasTypedLeak, CanLeakOf, IsLeakAnswer, sequences_in};
ghost use Rattle.lab_leak.specs.Views.{LeakBy};
ghost use Rattle.lab_leak.specs.Classes.{classes_of_runs};
ghost use Rattle.lab_leak.specs.Text.{HasCounts, TopBy, IsLeakText};

use crate::head::{put_head, put_shown};
use crate::lines::with_classes;
use crate::open::open_text;
use crate::sizes::sizes;
use audit_stage::audited::audited;
use lab_bound::own::put_own;
use lab_bound::shared::put_shared;
use lab_runs::least::LeastLabelled;
use lab_runs::shown::{ShownProgram, shown_file};
use label_code::image::Image;
use label_lattice::label::Label;
use leak_audit::report::AuditReport;
use leak_numbers::numbers::put_numbers;
use level_counts::levels::level_counts;
use machine_stage::lines as machine;
use machine_stage::lines::sharing;
use part_tlb::bank::Sharing;
use run_watch::Watch;
use sharp_count::count::{Runs, sharp_count};
use space_leak::leak::space_leak;
use space_stage::given::{StartSet, given};
use std::alloc::Global;
use text_base::pos::Memory;
use tim_base::shelf::Shelf;
use tool_stages::compiled::Compiled;
use tool_stages::prepared::Prepared;
use tool_stages::setting::Setting;
use tool_texts::stop::{Stop, no_memory};

// Appends the first lines on a machine with partitions.
fn put_counts(
    alloc: Global,
    text: &mut Vec<u8>,
    p: &Prepared,
    setting: Setting,
    report: &AuditReport,
) -> Result<(), Memory>
    requires fit { CanAudit p.now.compiled.typed.labelled p.now.observer p.now.compiled.image (map seen p.now.starts.items) }
    requires cycles { IsCycles setting.budget }
    requires reported { ReportsIn setting.env p.now.compiled.typed.labelled p.now.observer.number setting.budget (map seen p.now.starts.items) report.now }
    ensures { OnOk result (TextPut (HasCounts p.now.compiled.typed.labelled p.now.observer setting.budget (map seen p.now.starts.items) report.now)
        text.old.items text.new.items) }
{
    let (typed, starts) = (&p.compiled.typed, p.starts.as_slice());
    let (observer, budget) = (p.observer, setting.budget);
    let levels = level_counts(alloc, typed, starts, observer, budget + 1)?;
    let order = typed.labelled().program().lattice();
    let count = sharp_count(Runs::Halted, &levels, budget);
    put_head(text, order, observer, budget, report, count)?;
    put_shared(alloc, text, typed, observer, budget, &levels)?;
    put_own(alloc, text, typed, starts, observer, budget)?;
    Ok(())
}

// Appends the first lines.
fn put_top(
    alloc: Global,
    text: &mut Vec<u8>,
    p: &Prepared,
    setting: Setting,
    report: &AuditReport,
) -> Result<(), Memory>
    requires fit { CanAudit p.now.compiled.typed.labelled p.now.observer p.now.compiled.image (map seen p.now.starts.items) }
    requires cycles { IsCycles setting.budget }
    requires reported { ReportsIn setting.env p.now.compiled.typed.labelled p.now.observer.number setting.budget (map seen p.now.starts.items) report.now }
    ensures { OnOk result (TextPut (TopBy (hardware_of setting.env).sharing p.now.compiled.typed.labelled p.now.observer setting.budget
        (map seen p.now.starts.items) report.now) text.old.items text.new.items) }
{
    match sharing(setting.env) {
        Sharing::Partitioned => put_counts(alloc, text, p, setting, report),
        Sharing::Shared => {
            let order = p.compiled.typed.labelled().program().lattice();
            put_shown(text, order, p.observer, setting.budget, report)?;
            Ok(())
        }
    }
}

// The text of a prepared program of whose runs there is a report.
fn told_text(
    alloc: Global,
    p: &Prepared,
    setting: Setting,
    report: &AuditReport,
) -> Result<Vec<u8>, Memory>
    requires fit { CanAudit p.now.compiled.typed.labelled p.now.observer p.now.compiled.image (map seen p.now.starts.items) }
    requires cycles { IsCycles setting.budget }
    requires reported { ReportsIn setting.env p.now.compiled.typed.labelled p.now.observer.number setting.budget (map seen p.now.starts.items) report.now }
    ensures { IfOk result (λ v. IsLeakText setting.env p.now.compiled.typed.labelled p.now.observer setting.budget (map seen p.now.starts.items) report.now
        (classes_of_runs (sequences_in setting.env setting.budget p.now.compiled.typed.labelled p.now.observer.number (map seen p.now.starts.items)))
        v.items) }
{
    let found = sizes(alloc, report.measures.classes.as_slice())?;
    let mut text = Vec::new(alloc);
    machine::put_head(&mut text, setting.env)?;
    put_top(alloc, &mut text, p, setting, report)?;
    let runs = u64::from(report.runs);
    put_numbers(&mut text, runs, found.sizes.as_slice())?;
    let (labelled, starts) = (p.compiled.typed.labelled(), p.starts.as_slice());
    let image = &p.compiled.image;
    let whole = with_classes(
        alloc, labelled, image, p.observer, starts, setting, &found, text,
    )?;
    Ok(whole)
}

// The text of a prepared program.
fn prepared_text<W: Watch>(
    alloc: Global,
    p: &Prepared,
    setting: Setting,
    watch: &W,
) -> Result<Vec<u8>, Stop>
    requires fit { CanAudit p.now.compiled.typed.labelled p.now.observer p.now.compiled.image (map seen p.now.starts.items) }
    requires cycles { IsCycles setting.budget }
    ensures text { IfOk result (λ v. HasLeak setting.env setting.budget p.now.compiled.typed.labelled (Some p.now.observer) (map seen p.now.starts.items)
        status.Done v.items) }
    ensures stop { IfErr result (IsStop (HasLeak setting.env setting.budget p.now.compiled.typed.labelled (Some p.now.observer)
        (map seen p.now.starts.items))) }
{
    let report = match audited(alloc, p, setting, watch) {
        Ok(report) => report,
        Err(stop) => return Err(stop),
    };
    match told_text(alloc, p, setting, &report) {
        Ok(text) => Ok(text),
        Err(_) => Err(no_memory()),
    }
}

// The text of a compiled program and of what a start file gives.
fn typed_text<W: Watch>(
    alloc: Global,
    compiled: Compiled,
    observer: Label,
    given: StartSet,
    setting: Setting,
    watch: &W,
) -> Result<Vec<u8>, Stop>
    requires fit { CanLeakOf compiled.typed.labelled observer compiled.image (value_of given) }
    requires cycles { IsCycles setting.budget }
    ensures text { IfOk result (λ v. HasTypedLeak setting.env setting.budget compiled.typed.labelled (Some observer) (value_of given) status.Done v.items) }
    ensures stop { IfErr result (IsStop (HasTypedLeak setting.env setting.budget compiled.typed.labelled (Some observer) (value_of given))) }
{
    match given {
        StartSet::List(starts) => {
            let prepared = Prepared {
                compiled,
                observer,
                starts,
            };
            match prepared_text(alloc, &prepared, setting, watch) {
                Ok(text) => Ok(text),
                Err(stop) => Err(stop),
            }
        }
        StartSet::Space(space) => {
            let (p, image) = (compiled.typed.labelled(), &compiled.image);
            match space_leak(alloc, p, image, observer, &space, setting, watch) {
                Ok(text) => Ok(text),
                Err(stop) => Err(stop),
            }
        }
    }
}

// The text of what runs of a program, and of what a start file gives.
fn given_text<W: Watch>(
    alloc: Global,
    labels: LeastLabelled,
    image: Image,
    observer: Label,
    given: StartSet,
    setting: Setting,
    watch: &W,
) -> Result<Vec<u8>, Stop>
    requires fit { CanLeakOf (shown_of labels).labelled observer image (value_of given) }
    requires cycles { IsCycles setting.budget }
    ensures text { IfOk result (λ v. LeakBy labels setting.env setting.budget (Some observer) (value_of given) status.Done v.items) }
    ensures stop { IfErr result (IsStop (LeakBy labels setting.env setting.budget (Some observer) (value_of given))) }
{
    match labels {
        LeastLabelled::Accepted(typed) => {
            let compiled = Compiled {
                typed,
                image,
                observer: Some(observer),
            };
            match typed_text(alloc, compiled, observer, given, setting, watch) {
                Ok(text) => Ok(text),
                Err(stop) => Err(stop),
            }
        }
        LeastLabelled::Refused(p, refusal) => {
            match open_text(alloc, &p, &refusal, &image, observer, given, setting, watch) {
                Ok(text) => Ok(text),
                Err(stop) => Err(stop),
            }
        }
    }
}

/// The text of `leak` for the program of a file and the starts of another one, which lists them or gives a space. With `refused` a
/// program runs also where no labels type it. A watch is told how far each run has come.
///
/// # Errors
/// Stops with the first refusal, or with `Memory`.
pub(crate) fn leak_text<S: Shelf, W: Watch>(
    alloc: Global,
    shelf: &mut S,
    file: &str,
    starts: &str,
    name: &str,
    setting: Setting,
    refused: bool,
    watch: &W,
) -> Result<Vec<u8>, Stop>
    requires { IsCycles setting.budget }
    ensures same { KeepsFiles (S.content shelf.old) (S.content shelf.new) }
    ensures later { NoCountFalls (S.faults shelf.old) (S.faults shelf.new) }
    ensures log { Fetches (file.now ∷ starts.now ∷ []) (S.log shelf.old) (S.log shelf.new) result }
    ensures text { IfOk result (λ v. IsLeakAnswer (λ name. Rose (S.faults shelf.old name) (S.faults shelf.new name)) (S.content shelf.old) file.now starts.now
        name.now setting.env setting.budget refused status.Done v.items) }
    ensures stop { IfErr result (IsStop (IsLeakAnswer (λ name. Rose (S.faults shelf.old name) (S.faults shelf.new name)) (S.content shelf.old) file.now
        starts.now name.now setting.env setting.budget refused)) }
    ensures accepted { refused ≡ false → OnOk result (IsAccepted (S.content shelf.old file.now)) }
    ensures accepted_stop { refused ≡ false → IfErr result (λ e. IsTrue (is_past_typing (status_of e)) → IsAccepted (S.content shelf.old file.now)) }
{
    let shown = match shown_file(alloc, shelf, file, Some(name), refused) {
        Ok(shown) => shown,
        Err(stop) => return Err(stop),
    };
    let observer = shown.observer.unwrap();
    let given = match given(alloc, shelf, starts, shown.labels.labelled().program()) {
        Ok(given) => given,
        Err(stop) => return Err(stop),
    };
    let ShownProgram { labels, image, .. } = shown;
    match given_text(alloc, labels, image, observer, given, setting, watch) {
        Ok(text) => Ok(text),
        Err(stop) => Err(stop),
    }
}
