//! The text of `tune`.

ghost use Rattle.std.specs.Prelude.{◌≡◌, ◌++◌, ◌∷◌, [], Some, IfOk, IfErr, length, map, OnOk, IsTrue};
ghost use Rattle.tim_base.specs.Kept.{KeepsFiles, NoCountFalls};
ghost use Rattle.tim_base.specs.Faults.{Rose};
ghost use Rattle.start_file.specs.Starts.{seen};
ghost use Rattle.run_limits.specs.Cycles.{IsCycles};
ghost use Rattle.tool_texts.specs.Ends.{IsStop, status_of};
ghost use Rattle.tool_texts.specs.declared.status.Status.TheVariants as status;
ghost use Rattle.tool_stages.specs.Begins.{CanAudit};
ghost use Rattle.tool_stages.specs.Accepted.{is_past_typing, IsAccepted};
ghost use Rattle.tool_stages.specs.Fetches.{Fetches};
ghost use Rattle.machine_stage.specs.Lines.{machine_head};
ghost use Rattle.lab_tune.specs.Answer.{HasTune, IsTuneAnswer};
ghost use Rattle.lab_tune.specs.Text.{choice_lines, head_lines, tune_line};

use crate::best::best;
use crate::lines::{put, put_choices, put_runs, tune};
use crate::told::told;
use audit_stage::audited::audited;
use first_front::interval::Interval;
use lab_runs::prepared::prepare;
use machine_stage::lines::put_head;
use run_watch::Watch;
use std::alloc::Global;
use text_base::pos::Memory;
use tim_base::shelf::Shelf;
use tool_stages::prepared::Prepared;
use tool_stages::setting::Setting;
use tool_texts::stop::{Stop, no_memory};

// The text of a prepared program, and of choices for a mitigate.
fn told_text(
    alloc: Global,
    p: &Prepared,
    setting: Setting,
    mark: u32,
    choices: &[Interval],
) -> Result<Vec<u8>, Memory>
    requires fit { CanAudit p.now.compiled.typed.labelled p.now.observer p.now.compiled.image (map seen p.now.starts.items) }
    ensures { IfOk result (λ v. v.items ≡ machine_head setting.env ++ (tune_line mark
        ++ (head_lines p.now.compiled.typed.labelled.program.order p.now.observer setting.budget (length (map seen p.now.starts.items))
        ++ choice_lines (length (map seen p.now.starts.items)) choices.now))) }
{
    let order = p.compiled.typed.labelled().program().lattice();
    let runs = p.starts.len() as u64;
    let mut text = Vec::new(alloc);
    put_head(&mut text, setting.env)?;
    put(&mut text, &tune(mark))?;
    put_runs(&mut text, order, p.observer, setting.budget, runs)?;
    put_choices(&mut text, choices, runs)?;
    Ok(text)
}

// The text of a prepared program.
fn prepared_text<W: Watch>(
    alloc: Global,
    p: &Prepared,
    setting: Setting,
    mark: u32,
    bits: Option<u32>,
    watch: &W,
) -> Result<Vec<u8>, Stop>
    requires fit { CanAudit p.now.compiled.typed.labelled p.now.observer p.now.compiled.image (map seen p.now.starts.items) }
    requires cycles { IsCycles setting.budget }
    ensures text { IfOk result (λ v. HasTune setting.env setting.budget mark bits p.now.compiled.typed.labelled (Some p.now.observer)
        (map seen p.now.starts.items) status.Done v.items) }
    ensures stop { IfErr result (IsStop (HasTune setting.env setting.budget mark bits p.now.compiled.typed.labelled (Some p.now.observer)
        (map seen p.now.starts.items))) }
{
    match audited(alloc, p, setting, watch) {
        Ok(_) => {}
        Err(stop) => return Err(stop),
    }
    let best = match best(alloc, p, setting, mark) {
        Ok(best) => best,
        Err(stop) => return Err(stop),
    };
    let told = match told(alloc, best, mark, bits) {
        Ok(told) => told,
        Err(stop) => return Err(stop),
    };
    match told_text(alloc, p, setting, mark, told.as_slice()) {
        Ok(text) => Ok(text),
        Err(_) => Err(no_memory()),
    }
}

/// The text of `tune` for the program of a file and the starts of another one, on the mitigate with a mark. A watch is told how far each run has come.
///
/// # Errors
/// Stops with the first refusal, or with `Memory`.
pub(crate) fn tune_text<S: Shelf, W: Watch>(
    alloc: Global,
    shelf: &mut S,
    file: &str,
    starts: &str,
    name: &str,
    setting: Setting,
    mark: u32,
    bits: Option<u32>,
    watch: &W,
) -> Result<Vec<u8>, Stop>
    requires { IsCycles setting.budget }
    ensures same { KeepsFiles (S.content shelf.old) (S.content shelf.new) }
    ensures later { NoCountFalls (S.faults shelf.old) (S.faults shelf.new) }
    ensures log { Fetches (file.now ∷ starts.now ∷ []) (S.log shelf.old) (S.log shelf.new) result }
    ensures text { IfOk result (λ v. IsTuneAnswer (λ name. Rose (S.faults shelf.old name) (S.faults shelf.new name)) (S.content shelf.old) file.now
        starts.now name.now setting.env setting.budget mark bits status.Done v.items) }
    ensures stop { IfErr result (IsStop (IsTuneAnswer (λ name. Rose (S.faults shelf.old name) (S.faults shelf.new name)) (S.content shelf.old) file.now
        starts.now name.now setting.env setting.budget mark bits)) }
    ensures accepted { OnOk result (IsAccepted (S.content shelf.old file.now)) }
    ensures accepted_stop { IfErr result (λ e. IsTrue (is_past_typing (status_of e)) → IsAccepted (S.content shelf.old file.now)) }
{
    let prepared = match prepare(alloc, shelf, file, starts, name) {
        Ok(prepared) => prepared,
        Err(stop) => return Err(stop),
    };
    match prepared_text(alloc, &prepared, setting, mark, bits, watch) {
        Ok(text) => Ok(text),
        Err(stop) => Err(stop),
    }
}
