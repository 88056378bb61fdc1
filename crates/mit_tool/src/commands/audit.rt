//! `audit`: how many different sequences an observer can tell apart, and the bound of that.

ghost use Rattle.std.specs.Prelude.{Some, IfOk, IfErr, map, ◌∷◌, []};
ghost use Rattle.tim_base.specs.Kept.{KeepsFiles, NoCountFalls};
ghost use Rattle.tim_base.specs.Faults.{Rose};
ghost use Rattle.start_file.specs.Starts.{seen};
ghost use Rattle.run_limits.specs.Cycles.{IsCycles};
ghost use Rattle.tool_words.specs.WordsAsked.{audit};
ghost use Rattle.tool_texts.specs.Ends.{IsStop};
ghost use Rattle.tool_stages.specs.Begins.{CanAudit};
ghost use Rattle.tool_stages.specs.Fetches.{Fetches};
ghost use Rattle.mit_tool.specs.Audited.{HasAudited};
ghost use Rattle.mit_tool.specs.Commands.{IsAnswer};

use audit_stage::audited::audited;
use run_watch::Watch;
use std::alloc::Global;
use tim_base::shelf::Shelf;
use tool_stages::envs::Environment;
use tool_stages::prepared::{Prepared, prepare};
use tool_stages::setting::{NamedSetting, Setting};
use tool_texts::pieces::audits::put_audit;
use tool_texts::status::Status;
use tool_texts::stop::{Stop, no_memory};

/// A text and after it the lines of an audit's report. A watch is told how far each run has come.
///
/// # Errors
/// Stops with `Disagree`, `Unfinished`, `TooLong` or `Memory`.
pub fn audit_after<W: Watch>(
    alloc: Global,
    mut text: Vec<u8>,
    p: &Prepared,
    setting: NamedSetting,
    watch: &W,
) -> Result<Vec<u8>, Stop>
    requires fit { CanAudit p.now.compiled.typed.labelled p.now.observer p.now.compiled.image (map seen p.now.starts.items) }
    requires cycles { IsCycles setting.budget }
    ensures text { IfOk result (λ v. HasAudited setting.env setting.budget p.now.compiled.typed.labelled (Some p.now.observer) (map seen p.now.starts.items)
        text.items Status.Done v.items) }
    ensures stop { IfErr result (IsStop (HasAudited setting.env setting.budget p.now.compiled.typed.labelled (Some p.now.observer) (map seen p.now.starts.items)
        text.items)) }
{
    let program = p.compiled.typed.labelled().program();
    let named = Setting {
        env: Environment::Named(setting.env),
        budget: setting.budget,
    };
    let report = match audited(alloc, p, named, watch) {
        Ok(report) => report,
        Err(stop) => return Err(stop),
    };
    let order = program.lattice();
    match put_audit(&mut text, order, p.observer, setting.budget, &report) {
        Ok(()) => Ok(text),
        Err(_) => Err(no_memory()),
    }
}

/// The text of an audit of the program of a file from the starts of another one. A watch is told how far each run has come.
///
/// # Errors
/// Stops with the first refusal, or with `Memory`.
pub fn audit_text<S: Shelf, W: Watch>(
    alloc: Global,
    shelf: &mut S,
    file: &str,
    starts: &str,
    name: &str,
    setting: NamedSetting,
    watch: &W,
) -> Result<Vec<u8>, Stop>
    requires { IsCycles setting.budget }
    ensures same { KeepsFiles (S.content shelf.old) (S.content shelf.new) }
    ensures later { NoCountFalls (S.faults shelf.old) (S.faults shelf.new) }
    ensures log { Fetches (file.now ∷ starts.now ∷ []) (S.log shelf.old) (S.log shelf.new) result }
    ensures text { IfOk result (λ v. IsAnswer (λ name. Rose (S.faults shelf.old name) (S.faults shelf.new name)) (S.content shelf.old)
        (audit file.now starts.now name.now setting.env setting.budget) Status.Done v.items) }
    ensures stop { IfErr result (IsStop (IsAnswer (λ name. Rose (S.faults shelf.old name) (S.faults shelf.new name)) (S.content shelf.old)
        (audit file.now starts.now name.now setting.env setting.budget))) }
{
    let prepared = match prepare(alloc, shelf, file, starts, name) {
        Ok(prepared) => prepared,
        Err(stop) => return Err(stop),
    };
    match audit_after(alloc, Vec::new(alloc), &prepared, setting, watch) {
        Ok(text) => Ok(text),
        Err(stop) => Err(stop),
    }
}
