//! The call.

ghost use Rattle.std.specs.Prelude.{◌≡◌, ◌≤◌, ◌⊎◌, ◌∷◌, [], IsTrue};
ghost use Rattle.tim_base.specs.Kept.{KeepsFiles, NoCountFalls};
ghost use Rattle.tim_base.specs.Faults.{Rose};
ghost use Rattle.run_limits.specs.Cycles.{IsCycles};
ghost use Rattle.tool_texts.specs.Ends.{EndsBy, Nothing};
ghost use Rattle.tool_stages.specs.Accepted.{is_past_typing, IsAccepted};
ghost use Rattle.tool_stages.specs.Fetches.{HasFetched};
ghost use Rattle.lab_bound.specs.Answer.{IsBoundAnswer};
ghost use Rattle.lab_bound.specs.Complete.{CanBound};
ghost use Rattle.lab_bound.specs.Enough.{NumbersAreEnough};

use crate::laws::sharp_counts_are_enough;
use crate::text::bound_text;
use std::alloc::Global;
use tim_base::shelf::Shelf;
use tim_base::sink::Sink;
use tool_stages::setting::Setting;
use tool_texts::finish::tell;
use tool_texts::status::Status;

/// Writes what an audit says of the program of a file, of the runs from the starts of another one, and of an observer;
/// and after it for each level that does not flow to the observer how many relevant mitigations a run begins and the
/// least of their first predictions, the sharp count of that, its bits, what it means for guessing, the counts by shared
/// time and by own first predictions where relevant mitigates stand apart, and whether all this holds of who sees runs
/// end. On a machine that a file describes a line stands in front that tells how it is shared; where all labels share it,
/// what the runs show is told alone, and that no bound is. It stops where and as an audit does.
///
/// `answered`: the status and the text are the answer, in the order of its refusals, from what the shelf is told to
/// hold. A file may not be read only where the count of its faults rose. After a fault of the sink a prefix of the text
/// is written.
///
/// `accepted`: where the call came past the typing, the program is accepted.
///
/// `complete`: what can be done is done, want of memory aside, where no count of faults rose.
///
/// `enough`: the sharp count is at least the number of different sequences that the report counts, and where the end is
/// counted, at least that of the pairs of a sequence and an end. So are the counts by shared time and by own first
/// predictions where they are told.
pub fn bound<S: Shelf, W: Sink>(
    alloc: Global,
    shelf: &mut S,
    out: &mut W,
    file: &str,
    starts: &str,
    observer: &str,
    setting: Setting,
) -> Status
    requires { IsCycles setting.budget }
    ensures same { KeepsFiles (S.content shelf.old) (S.content shelf.new) }
    ensures later { NoCountFalls (S.faults shelf.old) (S.faults shelf.new) }
    ensures later_out { W.faults out.old ≤ W.faults out.new }
    ensures answered { EndsBy (W.taken out.old) (W.taken out.new) Nothing
        (IsBoundAnswer (λ name. Rose (S.faults shelf.old name) (S.faults shelf.new name)) (S.content shelf.old) file.now starts.now observer.now setting.env
        setting.budget) result }
    ensures write { result ≡ Status.WriteFault → Rose (W.faults out.old) (W.faults out.new) }
    ensures fetched { HasFetched (file.now ∷ starts.now ∷ []) result (S.log shelf.old) (S.log shelf.new) }
    ensures accepted { IsTrue (is_past_typing result) → IsAccepted (S.content shelf.old file.now) }
    ensures complete { CanBound (S.content shelf.old) file.now starts.now observer.now setting.env setting.budget
        → (Rose (S.faults shelf.old file.now) (S.faults shelf.new file.now) → ⊥) → (Rose (S.faults shelf.old starts.now) (S.faults shelf.new starts.now) → ⊥)
        → (Rose (W.faults out.old) (W.faults out.new) → ⊥) → (result ≡ Status.Done) ⊎ (result ≡ Status.Memory) }
    ensures enough { NumbersAreEnough setting.env setting.budget }
{
    sharp_counts_are_enough();
    let text = bound_text(alloc, shelf, file, starts, observer, setting, &*out);
    tell(out, text)
}
