//! `timeline`: the call.

ghost use Rattle.std.specs.Prelude.{◌≡◌, ◌≤◌, ◌⊎◌, ◌∷◌, [], IsTrue, false, option_map};
ghost use Rattle.tim_base.specs.Kept.{KeepsFiles, NoCountFalls};
ghost use Rattle.tim_base.specs.Faults.{Rose};
ghost use Rattle.run_limits.specs.Cycles.{IsCycles};
ghost use Rattle.tool_texts.specs.Ends.{EndsBy};
ghost use Rattle.tool_stages.specs.Accepted.{is_past_typing, IsAccepted};
ghost use Rattle.tool_stages.specs.Fetches.{HasFetched};
ghost use Rattle.lab_runs.specs.Shown.{CanShow};
ghost use Rattle.lab_timeline.specs.Timed.{TellsTimelines, TimelinesBefore};

use crate::walk::write_timelines;
use lab_runs::fault::RunFault;
use lab_runs::shown::shown_runs;
use std::alloc::Global;
use tim_base::shelf::Shelf;
use tim_base::sink::Sink;
use tool_stages::setting::Setting;
use tool_texts::finish::{stop, stop_for_memory};
use tool_texts::status::Status;

// The same, but for what is said of a call that can be done.
fn show<S: Shelf, W: Sink>(
    alloc: Global,
    shelf: &mut S,
    out: &mut W,
    file: &str,
    starts: &str,
    observer: Option<&str>,
    setting: Setting,
    refused: bool,
) -> Status
    requires { IsCycles setting.budget }
    ensures same { KeepsFiles (S.content shelf.old) (S.content shelf.new) }
    ensures later { NoCountFalls (S.faults shelf.old) (S.faults shelf.new) }
    ensures later_out { W.faults out.old ≤ W.faults out.new }
    ensures answered { EndsBy (W.taken out.old) (W.taken out.new)
        (TimelinesBefore (S.content shelf.old) file.now starts.now (option_map (λ s. s.now) observer.entry) setting.env setting.budget refused)
        (TellsTimelines (λ name. Rose (S.faults shelf.old name) (S.faults shelf.new name)) (S.content shelf.old) file.now starts.now
        (option_map (λ s. s.now) observer.entry) setting.env setting.budget refused) result }
    ensures write { result ≡ Status.WriteFault → Rose (W.faults out.old) (W.faults out.new) }
    ensures fetched { HasFetched (file.now ∷ starts.now ∷ []) result (S.log shelf.old) (S.log shelf.new) }
    ensures accepted { refused ≡ false → IsTrue (is_past_typing result) → IsAccepted (S.content shelf.old file.now) }
{
    let runs = match shown_runs(alloc, shelf, file, starts, observer, refused) {
        Ok(runs) => runs,
        Err(e) => return stop(out, e),
    };
    match runs.program.labels.write_head(out) {
        Ok(()) => {}
        Err(_) => return Status::WriteFault,
    }
    match write_timelines(alloc, &runs, setting, out) {
        Ok(()) => Status::Done,
        Err(RunFault::Memory) => stop_for_memory(out),
        Err(RunFault::Sink) => Status::WriteFault,
    }
}

/// Runs the program of a file from each start of another one, up to the budget, and writes for each run, in order, its
/// number and a line for each beginning and each end of a mitigation, for each assignment, or each that the observer
/// sees, and for its end; and after all runs a line for each mitigate of the text. The starts need not agree. With
/// `refused` a program that no labels type runs too, by its least labels, and a line before the runs says so.
///
/// `answered`: the status and the text are the answer, in the order of the refusals of an audit. Where memory was
/// wanting the line for that stands after the lines of the runs before.
///
/// `accepted`: where the call came past the typing without `refused`, the program is accepted.
///
/// `complete`: a call that can be done is done, want of memory aside, where no count of faults rose.
pub fn timeline<S: Shelf, W: Sink>(
    alloc: Global,
    shelf: &mut S,
    out: &mut W,
    file: &str,
    starts: &str,
    observer: Option<&str>,
    setting: Setting,
    refused: bool,
) -> Status
    requires { IsCycles setting.budget }
    ensures same { KeepsFiles (S.content shelf.old) (S.content shelf.new) }
    ensures later { NoCountFalls (S.faults shelf.old) (S.faults shelf.new) }
    ensures later_out { W.faults out.old ≤ W.faults out.new }
    ensures answered { EndsBy (W.taken out.old) (W.taken out.new)
        (TimelinesBefore (S.content shelf.old) file.now starts.now (option_map (λ s. s.now) observer.entry) setting.env setting.budget refused)
        (TellsTimelines (λ name. Rose (S.faults shelf.old name) (S.faults shelf.new name)) (S.content shelf.old) file.now starts.now
        (option_map (λ s. s.now) observer.entry) setting.env setting.budget refused) result }
    ensures write { result ≡ Status.WriteFault → Rose (W.faults out.old) (W.faults out.new) }
    ensures fetched { HasFetched (file.now ∷ starts.now ∷ []) result (S.log shelf.old) (S.log shelf.new) }
    ensures accepted { refused ≡ false → IsTrue (is_past_typing result) → IsAccepted (S.content shelf.old file.now) }
    ensures complete { CanShow refused (S.content shelf.old) file.now starts.now (option_map (λ s. s.now) observer.entry)
        → (Rose (S.faults shelf.old file.now) (S.faults shelf.new file.now) → ⊥) → (Rose (S.faults shelf.old starts.now) (S.faults shelf.new starts.now) → ⊥)
        → (Rose (W.faults out.old) (W.faults out.new) → ⊥) → (result ≡ Status.Done) ⊎ (result ≡ Status.Memory) }
{
    show(alloc, shelf, out, file, starts, observer, setting, refused)
}
