//! The text of `bound`.

ghost use Rattle.std.specs.Prelude.{◌≡◌, ◌++◌, ◌∷◌, [], Some, IfOk, IfErr, length, map, OnOk, IsTrue};
ghost use Rattle.tim_base.specs.Kept.{KeepsFiles, NoCountFalls};
ghost use Rattle.tim_base.specs.Faults.{Rose};
ghost use Rattle.start_file.specs.Starts.{seen};
ghost use Rattle.run_limits.specs.Cycles.{IsCycles};
ghost use Rattle.tool_texts.specs.Ends.{IsStop, status_of};
ghost use Rattle.tool_texts.specs.declared.status.Status.TheVariants as status;
ghost use Rattle.tool_stages.specs.Begins.{CanAudit};
ghost use Rattle.tool_stages.specs.Accepted.{is_past_typing, IsAccepted};
ghost use Rattle.tool_stages.specs.Fetches.{Fetches};
ghost use Rattle.tool_stages.specs.Envs.{hardware_of, ReportsIn};
ghost use Rattle.lab_bound.specs.Text.{BoundPut, TextPut};
ghost use Rattle.lab_bound.specs.Answer.{HasBound, HasCounts, TellsBy, IsBoundAnswer};

use crate::end::put_end;
use crate::lines::{put_levels, put_sharp};
use crate::own::put_own;
use crate::shared::put_shared;
use crate::shown::put_shown;
use audit_stage::audited::audited;
use lab_runs::prepared::prepare;
use label_lattice::label::Label;
use label_lattice::lattice::Lattice;
use leak_audit::report::AuditReport;
use level_counts::levels::level_counts;
use machine_stage::lines::{put_head, sharing};
use part_tlb::bank::Sharing;
use run_watch::Watch;
use sharp_count::count::{LevelRuns, Runs, sharp_count};
use std::alloc::{AllocError, Global};
use text_base::pos::Memory;
use tim_base::shelf::Shelf;
use tool_stages::prepared::Prepared;
use tool_stages::setting::Setting;
use tool_texts::pieces::audits::put_audit;
use tool_texts::stop::{Stop, no_memory};

// Appends what is told of the levels, and the sharp count of that.
fn put_bound(
    text: &mut Vec<u8>,
    order: &Lattice,
    observer: Label,
    t: u64,
    levels: &[LevelRuns],
) -> Result<(), AllocError>
    requires { length levels.now ≡ order.now.size }
    ensures { OnOk result (BoundPut order.now observer.number t levels.now text.old.items text.new.items) }
{
    put_levels(text, order, observer, t, levels)?;
    put_sharp(text, sharp_count(Runs::Halted, levels, t))?;
    Ok(())
}

// Appends what is told of a prepared program of whose runs there is a report, on a machine with partitions.
fn put_counts(
    alloc: Global,
    text: &mut Vec<u8>,
    p: &Prepared,
    setting: Setting,
    report: &AuditReport,
) -> Result<(), Memory>
    requires fit { CanAudit p.now.compiled.typed.labelled p.now.observer p.now.compiled.image (map seen p.now.starts.items) }
    requires cycles { IsCycles setting.budget }
    requires reported { ReportsIn setting.env p.now.compiled.typed.labelled p.now.observer.number setting.budget (map seen p.now.starts.items) report.now }
    ensures { OnOk result (TextPut (HasCounts p.now.compiled.typed.labelled p.now.observer setting.budget (map seen p.now.starts.items) report.now)
        text.old.items text.new.items) }
{
    let (typed, starts) = (&p.compiled.typed, p.starts.as_slice());
    let (observer, budget) = (p.observer, setting.budget);
    let levels = level_counts(alloc, typed, starts, observer, budget + 1)?;
    let order = typed.labelled().program().lattice();
    put_audit(text, order, observer, budget, report)?;
    put_bound(text, order, observer, budget, &levels)?;
    put_shared(alloc, text, typed, observer, budget, &levels)?;
    put_own(alloc, text, typed, starts, observer, budget)?;
    put_end(text, typed, observer)?;
    Ok(())
}

// Appends what is told of a prepared program of whose runs there is a report.
fn put_told(
    alloc: Global,
    text: &mut Vec<u8>,
    p: &Prepared,
    setting: Setting,
    report: &AuditReport,
) -> Result<(), Memory>
    requires fit { CanAudit p.now.compiled.typed.labelled p.now.observer p.now.compiled.image (map seen p.now.starts.items) }
    requires cycles { IsCycles setting.budget }
    requires reported { ReportsIn setting.env p.now.compiled.typed.labelled p.now.observer.number setting.budget (map seen p.now.starts.items) report.now }
    ensures { OnOk result (TextPut (TellsBy (hardware_of setting.env).sharing p.now.compiled.typed.labelled p.now.observer setting.budget
        (map seen p.now.starts.items) report.now) text.old.items text.new.items) }
{
    match sharing(setting.env) {
        Sharing::Partitioned => put_counts(alloc, text, p, setting, report),
        Sharing::Shared => {
            let order = p.compiled.typed.labelled().program().lattice();
            put_shown(text, order, p.observer, setting.budget, report)?;
            Ok(())
        }
    }
}

// The text of a prepared program of whose runs there is a report.
fn told_text(
    alloc: Global,
    p: &Prepared,
    setting: Setting,
    report: &AuditReport,
) -> Result<Vec<u8>, Memory>
    requires fit { CanAudit p.now.compiled.typed.labelled p.now.observer p.now.compiled.image (map seen p.now.starts.items) }
    requires cycles { IsCycles setting.budget }
    requires reported { ReportsIn setting.env p.now.compiled.typed.labelled p.now.observer.number setting.budget (map seen p.now.starts.items) report.now }
    ensures { IfOk result (λ v. HasBound setting.env setting.budget p.now.compiled.typed.labelled (Some p.now.observer) (map seen p.now.starts.items)
        status.Done v.items) }
{
    let mut text = Vec::new(alloc);
    put_head(&mut text, setting.env)?;
    put_told(alloc, &mut text, p, setting, report)?;
    Ok(text)
}

// The text of a prepared program.
fn prepared_text<W: Watch>(
    alloc: Global,
    p: &Prepared,
    setting: Setting,
    watch: &W,
) -> Result<Vec<u8>, Stop>
    requires fit { CanAudit p.now.compiled.typed.labelled p.now.observer p.now.compiled.image (map seen p.now.starts.items) }
    requires cycles { IsCycles setting.budget }
    ensures text { IfOk result (λ v. HasBound setting.env setting.budget p.now.compiled.typed.labelled (Some p.now.observer) (map seen p.now.starts.items)
        status.Done v.items) }
    ensures stop { IfErr result (IsStop (HasBound setting.env setting.budget p.now.compiled.typed.labelled (Some p.now.observer)
        (map seen p.now.starts.items))) }
{
    let report = match audited(alloc, p, setting, watch) {
        Ok(report) => report,
        Err(stop) => return Err(stop),
    };
    match told_text(alloc, p, setting, &report) {
        Ok(text) => Ok(text),
        Err(_) => Err(no_memory()),
    }
}

/// The text of `bound` for the program of a file and the starts of another one. A watch is told how far each run has come.
///
/// # Errors
/// Stops with the first refusal, or with `Memory`.
pub fn bound_text<S: Shelf, W: Watch>(
    alloc: Global,
    shelf: &mut S,
    file: &str,
    starts: &str,
    name: &str,
    setting: Setting,
    watch: &W,
) -> Result<Vec<u8>, Stop>
    requires { IsCycles setting.budget }
    ensures same { KeepsFiles (S.content shelf.old) (S.content shelf.new) }
    ensures later { NoCountFalls (S.faults shelf.old) (S.faults shelf.new) }
    ensures log { Fetches (file.now ∷ starts.now ∷ []) (S.log shelf.old) (S.log shelf.new) result }
    ensures text { IfOk result (λ v. IsBoundAnswer (λ name. Rose (S.faults shelf.old name) (S.faults shelf.new name)) (S.content shelf.old) file.now
        starts.now name.now setting.env setting.budget status.Done v.items) }
    ensures stop { IfErr result (IsStop (IsBoundAnswer (λ name. Rose (S.faults shelf.old name) (S.faults shelf.new name)) (S.content shelf.old) file.now
        starts.now name.now setting.env setting.budget)) }
    ensures accepted { OnOk result (IsAccepted (S.content shelf.old file.now)) }
    ensures accepted_stop { IfErr result (λ e. IsTrue (is_past_typing (status_of e)) → IsAccepted (S.content shelf.old file.now)) }
{
    let prepared = match prepare(alloc, shelf, file, starts, name) {
        Ok(prepared) => prepared,
        Err(stop) => return Err(stop),
    };
    match prepared_text(alloc, &prepared, setting, watch) {
        Ok(text) => Ok(text),
        Err(stop) => Err(stop),
    }
}
