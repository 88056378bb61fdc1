//! `blackbox`: the releases of a black box for the runs of a file.

ghost use Rattle.std.specs.Prelude.{◌≤◌, IfOk, IfErr, length, ◌∷◌, []};
ghost use Rattle.tim_base.specs.Kept.{KeepsFiles, NoCountFalls};
ghost use Rattle.tim_base.specs.Faults.{Rose};
ghost use Rattle.black_box.specs.Files.{ready_lists};
ghost use Rattle.run_limits.specs.Cycles.{IsCycles};
ghost use Rattle.tool_words.specs.WordsAsked.{blackbox};
ghost use Rattle.tool_texts.specs.Ends.{IsStop};
ghost use Rattle.tool_stages.specs.Fetches.{Fetches};
ghost use Rattle.mit_tool.specs.Audited.{HasReleased};
ghost use Rattle.mit_tool.specs.Commands.{IsAnswer};

use black_box::audit::box_audit;
use run_limits::MAX_RUNS;
use std::alloc::Global;
use text_base::pos::Memory;
use tim_base::shelf::Shelf;
use tool_stages::ready::ready_runs;
use tool_texts::pieces::boxes::put_box;
use tool_texts::status::Status;
use tool_texts::stop::{Stop, no_memory};

// The text of runs with these ready cycles.
fn released(alloc: Global, all: &[Vec<u64>], first: u64, budget: u64) -> Result<Vec<u8>, Memory>
    requires few { length all.now ≤ MAX_RUNS }
    requires first { IsCycles first }
    requires budget { IsCycles budget }
    ensures { IfOk result (λ v. HasReleased first budget (ready_lists all.now) Status.Done v.items) }
{
    let audit = box_audit(alloc, all, first, budget)?;
    let mut text = Vec::new(alloc);
    match put_box(&mut text, all, first, budget, &audit) {
        Ok(()) => Ok(text),
        Err(_) => Err(Memory),
    }
}

/// The text of a black box for the runs of a file: what is released when, how many different lists of releases
/// there are, and their bound. The distance of the slots in the first epoch and the budget are in cycles.
///
/// # Errors
/// Stops with the first refusal, or with `Memory`.
pub fn blackbox_text<S: Shelf>(
    alloc: Global,
    shelf: &mut S,
    file: &str,
    first: u64,
    budget: u64,
) -> Result<Vec<u8>, Stop>
    requires first { IsCycles first }
    requires budget { IsCycles budget }
    ensures same { KeepsFiles (S.content shelf.old) (S.content shelf.new) }
    ensures later { NoCountFalls (S.faults shelf.old) (S.faults shelf.new) }
    ensures log { Fetches (file.now ∷ []) (S.log shelf.old) (S.log shelf.new) result }
    ensures text { IfOk result (λ v. IsAnswer (λ name. Rose (S.faults shelf.old name) (S.faults shelf.new name)) (S.content shelf.old)
        (blackbox file.now first budget) Status.Done v.items) }
    ensures stop { IfErr result (IsStop (IsAnswer (λ name. Rose (S.faults shelf.old name) (S.faults shelf.new name)) (S.content shelf.old)
        (blackbox file.now first budget))) }
{
    let runs = match ready_runs(alloc, shelf, file) {
        Ok(runs) => runs,
        Err(stop) => return Err(stop),
    };
    match released(alloc, runs.as_slice(), first, budget) {
        Ok(text) => Ok(text),
        Err(_) => Err(no_memory()),
    }
}
