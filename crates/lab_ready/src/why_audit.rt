//! The command `why` for an audit.

ghost use Rattle.std.specs.Prelude.{◌≡◌, ◌<◌, ◌≤◌, ◌∷◌, [], ℕ, List, Some};
ghost use Rattle.run_limits.specs.Cycles.{IsCycles};
ghost use Rattle.tim_base.specs.Kept.{KeepsFiles, NoCountFalls};
ghost use Rattle.tim_base.specs.Faults.{Rose};
ghost use Rattle.tool_texts.specs.Ends.{EndsBy, Nothing};
ghost use Rattle.tool_stages.specs.Fetches.{HasFetched};
ghost use Rattle.tool_stages.specs.Stages.{HasImage};
ghost use Rattle.lab_ready.specs.Answer.{IsReadyAnswer, IsRest};

use crate::begun::{Begun, begin};
use crate::rest::rest_told;
use label_lattice::label::Label;
use std::alloc::Global;
use tim_base::shelf::Shelf;
use tim_base::sink::Sink;
use tool_stages::compiled::Compiled;
use tool_stages::setting::Setting;
use tool_texts::finish::{finish, stop};
use tool_texts::status::Status;

// Tells of a start file for a program that has an image.
fn tell_rest<S: Shelf, W: Sink>(
    alloc: Global,
    shelf: &mut S,
    out: &mut W,
    compiled: Compiled,
    observer: Label,
    starts: &str,
    setting: Setting,
) -> Status
    requires cycles { IsCycles setting.budget }
    requires image { HasImage compiled.typed.labelled compiled.image }
    requires observer { observer.number < compiled.typed.labelled.program.order.size }
    ensures same { KeepsFiles (S.content shelf.old) (S.content shelf.new) }
    ensures later { NoCountFalls (S.faults shelf.old) (S.faults shelf.new) }
    ensures later_out { W.faults out.old ≤ W.faults out.new }
    ensures answered { EndsBy (W.taken out.old) (W.taken out.new) Nothing
        (IsRest (Rose (S.faults shelf.old starts.now) (S.faults shelf.new starts.now)) (S.content shelf.old starts.now) setting.env setting.budget
        compiled.typed.labelled.program compiled.typed.labelled (Some observer)) result }
    ensures write { result ≡ Status.WriteFault → Rose (W.faults out.old) (W.faults out.new) }
    ensures fetched { HasFetched (starts.now ∷ []) result (S.log shelf.old) (S.log shelf.new) }
{
    let told = rest_told(alloc, shelf, starts, compiled, observer, setting, &*out);
    match told {
        Ok(told) => finish(out, told.text.as_slice(), told.status),
        Err(e) => stop(out, e),
    }
}

/// Tells whether an audit of the program of a file, from the starts of another one, would be refused, and why: what stops it, in the
/// order in which it stops an audit, with the tool's own line, and behind it what stands there and what has to stand there. Where nothing
/// stops it, that is told.
///
/// `answered`: the status and the text are the answer, in the order of its refusals, from what the shelf is told to hold. A file may not
/// be read only where the count of its faults rose. After a fault of the sink a prefix of the text is written.
pub fn why_audit<S: Shelf, W: Sink>(
    alloc: Global,
    shelf: &mut S,
    out: &mut W,
    file: &str,
    starts: &str,
    observer: &str,
    setting: Setting,
) -> Status
    requires { IsCycles setting.budget }
    ensures same { KeepsFiles (S.content shelf.old) (S.content shelf.new) }
    ensures later { NoCountFalls (S.faults shelf.old) (S.faults shelf.new) }
    ensures later_out { W.faults out.old ≤ W.faults out.new }
    ensures answered { EndsBy (W.taken out.old) (W.taken out.new) Nothing
        (IsReadyAnswer (λ name. Rose (S.faults shelf.old name) (S.faults shelf.new name)) (S.content shelf.old) file.now starts.now observer.now
        setting.env setting.budget) result }
    ensures write { result ≡ Status.WriteFault → Rose (W.faults out.old) (W.faults out.new) }
    ensures fetched { HasFetched (file.now ∷ starts.now ∷ []) result (S.log shelf.old) (S.log shelf.new) }
{
    match begin(alloc, shelf, file, observer) {
        Ok(Begun::Goes(compiled, observer)) => tell_rest(
            alloc, shelf, out, compiled, observer, starts, setting,
        ),
        Ok(Begun::Ends(told)) => finish(out, told.text.as_slice(), told.status),
        Err(e) => stop(out, e),
    }
}
