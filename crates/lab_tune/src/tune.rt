//! The call.

ghost use Rattle.std.specs.Prelude.{◌≡◌, ◌≤◌, ◌⊎◌, ◌∷◌, [], IsTrue};
ghost use Rattle.tim_base.specs.Kept.{KeepsFiles, NoCountFalls};
ghost use Rattle.tim_base.specs.Faults.{Rose};
ghost use Rattle.run_limits.specs.Cycles.{IsCycles};
ghost use Rattle.tool_texts.specs.Ends.{EndsBy, Nothing};
ghost use Rattle.tool_stages.specs.Accepted.{is_past_typing, IsAccepted};
ghost use Rattle.tool_stages.specs.Fetches.{HasFetched};
ghost use Rattle.lab_tune.specs.Answer.{IsTuneAnswer};
ghost use Rattle.lab_tune.specs.Complete.{CanTune};

use crate::text::tune_text;
use std::alloc::Global;
use tim_base::shelf::Shelf;
use tim_base::sink::Sink;
use tool_stages::setting::Setting;
use tool_texts::finish::tell;
use tool_texts::status::Status;

/// Writes which first predictions of the mitigate with a mark are best for the runs of the program of a file from the starts of
/// another one, the others being kept as they are written: a line for each of them, of all from 1 to 2^40 with which every
/// run ends within the budget, that no other one betters. The line has the interval of first predictions that it begins, in
/// which no miss count of any run changes, how many different lists of miss counts of the mitigates that are relevant for the
/// observer the runs have, which is the most that it can tell apart, and their mean and greatest end. With `bits` only one of these
/// lines is written, that of the cheapest of all first predictions that tell at most 2^bits things. It stops where and as an audit
/// does, where no number is pushed for the estimate of the mitigate, and where none tells as little as `bits` asks for.
///
/// `answered`: the status and the text are the answer, in the order of its refusals, from what the shelf is told to
/// hold. A file may not be read only where the count of its faults rose. After a fault of the sink a prefix of the text
/// is written.
///
/// `accepted`: where the call came past the typing, the program is accepted.
///
/// `complete`: what can be done is done, want of memory aside, where no count of faults rose.
pub fn tune<S: Shelf, W: Sink>(
    alloc: Global,
    shelf: &mut S,
    out: &mut W,
    file: &str,
    starts: &str,
    observer: &str,
    setting: Setting,
    mark: u32,
    bits: Option<u32>,
) -> Status
    requires { IsCycles setting.budget }
    ensures same { KeepsFiles (S.content shelf.old) (S.content shelf.new) }
    ensures later { NoCountFalls (S.faults shelf.old) (S.faults shelf.new) }
    ensures later_out { W.faults out.old ≤ W.faults out.new }
    ensures answered { EndsBy (W.taken out.old) (W.taken out.new) Nothing
        (IsTuneAnswer (λ name. Rose (S.faults shelf.old name) (S.faults shelf.new name)) (S.content shelf.old) file.now starts.now observer.now setting.env
        setting.budget mark bits) result }
    ensures write { result ≡ Status.WriteFault → Rose (W.faults out.old) (W.faults out.new) }
    ensures fetched { HasFetched (file.now ∷ starts.now ∷ []) result (S.log shelf.old) (S.log shelf.new) }
    ensures accepted { IsTrue (is_past_typing result) → IsAccepted (S.content shelf.old file.now) }
    ensures complete { CanTune (S.content shelf.old) file.now starts.now observer.now setting.env setting.budget mark bits
        → (Rose (S.faults shelf.old file.now) (S.faults shelf.new file.now) → ⊥) → (Rose (S.faults shelf.old starts.now) (S.faults shelf.new starts.now) → ⊥)
        → (Rose (W.faults out.old) (W.faults out.new) → ⊥) → (result ≡ Status.Done) ⊎ (result ≡ Status.Memory) }
{
    let text = tune_text(
        alloc, shelf, file, starts, observer, setting, mark, bits, &*out,
    );
    tell(out, text)
}
