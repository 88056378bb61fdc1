//! `seen`: the call.

ghost use Rattle.std.specs.Prelude.{◌≡◌, ◌≤◌, ◌⊎◌, ◌∷◌, [], IsTrue, Some, false};
ghost use Rattle.tim_base.specs.Kept.{KeepsFiles, NoCountFalls};
ghost use Rattle.tim_base.specs.Faults.{Rose};
ghost use Rattle.tool_texts.specs.Ends.{EndsBy};
ghost use Rattle.tool_stages.specs.Accepted.{is_past_typing, IsAccepted};
ghost use Rattle.tool_stages.specs.Fetches.{HasFetched};
ghost use Rattle.lab_runs.specs.Shown.{CanShow};
ghost use Rattle.lab_seen.specs.Seen.{IsSeen, SeenBefore};

use crate::walk::write_lines;
use lab_runs::fault::RunFault;
use lab_runs::shown::shown_runs;
use std::alloc::Global;
use tim_base::shelf::Shelf;
use tim_base::sink::Sink;
use tool_stages::setting::Setting;
use tool_texts::finish::{stop, stop_for_memory};
use tool_texts::status::Status;

// The same, but for what is said of a call that can be done.
fn show<S: Shelf, W: Sink>(
    alloc: Global,
    shelf: &mut S,
    out: &mut W,
    file: &str,
    starts: &str,
    observer: &str,
    setting: Setting,
    refused: bool,
) -> Status
    ensures same { KeepsFiles (S.content shelf.old) (S.content shelf.new) }
    ensures later { NoCountFalls (S.faults shelf.old) (S.faults shelf.new) }
    ensures later_out { W.faults out.old ≤ W.faults out.new }
    ensures answered { EndsBy (W.taken out.old) (W.taken out.new) (SeenBefore (S.content shelf.old) file.now starts.now observer.now setting.env setting.budget
        refused)
        (IsSeen (λ name. Rose (S.faults shelf.old name) (S.faults shelf.new name)) (S.content shelf.old) file.now starts.now observer.now setting.env
        setting.budget refused) result }
    ensures write { result ≡ Status.WriteFault → Rose (W.faults out.old) (W.faults out.new) }
    ensures fetched { HasFetched (file.now ∷ starts.now ∷ []) result (S.log shelf.old) (S.log shelf.new) }
    ensures accepted { refused ≡ false → IsTrue (is_past_typing result) → IsAccepted (S.content shelf.old file.now) }
{
    let runs = match shown_runs(alloc, shelf, file, starts, Some(observer), refused) {
        Ok(runs) => runs,
        Err(e) => return stop(out, e),
    };
    let label = runs.program.observer.unwrap();
    match runs.program.labels.write_head(out) {
        Ok(()) => {}
        Err(_) => return Status::WriteFault,
    }
    match write_lines(alloc, &runs, label, setting, out) {
        Ok(()) => Status::Done,
        Err(RunFault::Memory) => stop_for_memory(out),
        Err(RunFault::Sink) => Status::WriteFault,
    }
}

/// Runs the program of a file from each start of another one, up to the budget, and writes for each run, in order, a
/// line with its number, a tab, and what the observer sees of it as one field. The starts need not agree. With `refused`
/// a program that no labels type runs too, by its least labels, and a line before the runs says so.
///
/// `answered`: the status and the text are the answer, in the order of the refusals of an audit. Where memory was
/// wanting the line for that stands after the lines of the runs before.
///
/// `accepted`: where the call came past the typing without `refused`, the program is accepted.
///
/// `complete`: a call that can be done is done, want of memory aside, where no count of faults rose.
pub fn seen<S: Shelf, W: Sink>(
    alloc: Global,
    shelf: &mut S,
    out: &mut W,
    file: &str,
    starts: &str,
    observer: &str,
    setting: Setting,
    refused: bool,
) -> Status
    ensures same { KeepsFiles (S.content shelf.old) (S.content shelf.new) }
    ensures later { NoCountFalls (S.faults shelf.old) (S.faults shelf.new) }
    ensures later_out { W.faults out.old ≤ W.faults out.new }
    ensures answered { EndsBy (W.taken out.old) (W.taken out.new) (SeenBefore (S.content shelf.old) file.now starts.now observer.now setting.env setting.budget
        refused)
        (IsSeen (λ name. Rose (S.faults shelf.old name) (S.faults shelf.new name)) (S.content shelf.old) file.now starts.now observer.now setting.env
        setting.budget refused) result }
    ensures write { result ≡ Status.WriteFault → Rose (W.faults out.old) (W.faults out.new) }
    ensures fetched { HasFetched (file.now ∷ starts.now ∷ []) result (S.log shelf.old) (S.log shelf.new) }
    ensures accepted { refused ≡ false → IsTrue (is_past_typing result) → IsAccepted (S.content shelf.old file.now) }
    ensures complete { CanShow refused (S.content shelf.old) file.now starts.now (Some observer.now)
        → (Rose (S.faults shelf.old file.now) (S.faults shelf.new file.now) → ⊥) → (Rose (S.faults shelf.old starts.now) (S.faults shelf.new starts.now) → ⊥)
        → (Rose (W.faults out.old) (W.faults out.new) → ⊥) → (result ≡ Status.Done) ⊎ (result ≡ Status.Memory) }
{
    show(alloc, shelf, out, file, starts, observer, setting, refused)
}
