//! The call.

ghost use Rattle.std.specs.Prelude.{◌≡◌, ◌≤◌, ◌⊎◌, ◌∷◌, [], false, IsTrue};
ghost use Rattle.tim_base.specs.Kept.{KeepsFiles, NoCountFalls};
ghost use Rattle.tim_base.specs.Faults.{Rose};
ghost use Rattle.run_limits.specs.Cycles.{IsCycles};
ghost use Rattle.tool_texts.specs.Ends.{EndsBy, Nothing};
ghost use Rattle.tool_stages.specs.Accepted.{is_past_typing, IsAccepted};
ghost use Rattle.tool_stages.specs.Fetches.{HasFetched};
ghost use Rattle.lab_leak.specs.Answer.{IsLeakAnswer};
ghost use Rattle.lab_leak.specs.Complete.{CanLeak};
ghost use Rattle.lab_leak.specs.Ordered.{NumbersAreOrdered};

use crate::laws::numbers_are_ordered;
use crate::text::leak_text;
use std::alloc::Global;
use tim_base::shelf::Shelf;
use tim_base::sink::Sink;
use tool_stages::setting::Setting;
use tool_texts::finish::tell;
use tool_texts::status::Status;

/// Writes what the runs of the program of a file from the starts of another one, a list or a space, tell an observer of the
/// start. Of a list: how many runs there are, the observer, the budget, the bound of an audit, the sharp count, how many different things are seen,
/// the sizes of their classes, entropies as intervals in which they lie, what a guess of the start is worth before and
/// after; and for each class its size, the number of its first run, and what the observer sees of it as one field. On a
/// machine that a file describes a line stands in front that tells how it is shared; where all labels share it, no bound and
/// no sharp count is told. It stops where and as an audit does. Of a space: what `space_leak` tells. With `refused` a program that no
/// labels type runs too, by its least labels: a line in front says so, and no count is told that rests on a type.
///
/// `answered`: the status and the text are the answer, in the order of its refusals, from what the shelf is told to
/// hold. A file may not be read only where the count of its faults rose. After a fault of the sink a prefix of the text
/// is written.
///
/// `accepted`: where the call came past the typing without `refused`, the program is accepted.
///
/// `complete`: what can be done is done, want of memory aside, where no count of faults rose.
///
/// `ordered`: the number of classes is at most the sharp count, and that is at most the bound.
pub fn leak<S: Shelf, W: Sink>(
    alloc: Global,
    shelf: &mut S,
    out: &mut W,
    file: &str,
    starts: &str,
    observer: &str,
    setting: Setting,
    refused: bool,
) -> Status
    requires { IsCycles setting.budget }
    ensures same { KeepsFiles (S.content shelf.old) (S.content shelf.new) }
    ensures later { NoCountFalls (S.faults shelf.old) (S.faults shelf.new) }
    ensures later_out { W.faults out.old ≤ W.faults out.new }
    ensures answered { EndsBy (W.taken out.old) (W.taken out.new) Nothing
        (IsLeakAnswer (λ name. Rose (S.faults shelf.old name) (S.faults shelf.new name)) (S.content shelf.old) file.now starts.now observer.now setting.env
        setting.budget refused) result }
    ensures write { result ≡ Status.WriteFault → Rose (W.faults out.old) (W.faults out.new) }
    ensures fetched { HasFetched (file.now ∷ starts.now ∷ []) result (S.log shelf.old) (S.log shelf.new) }
    ensures accepted { refused ≡ false → IsTrue (is_past_typing result) → IsAccepted (S.content shelf.old file.now) }
    ensures complete { CanLeak refused (S.content shelf.old) file.now starts.now observer.now setting.env setting.budget
        → (Rose (S.faults shelf.old file.now) (S.faults shelf.new file.now) → ⊥) → (Rose (S.faults shelf.old starts.now) (S.faults shelf.new starts.now) → ⊥)
        → (Rose (W.faults out.old) (W.faults out.new) → ⊥) → (result ≡ Status.Done) ⊎ (result ≡ Status.Memory) }
    ensures ordered { NumbersAreOrdered setting.env setting.budget }
{
    numbers_are_ordered();
    let text = leak_text(
        alloc, shelf, file, starts, observer, setting, refused, &*out,
    );
    tell(out, text)
}
