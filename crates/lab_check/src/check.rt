//! The command `check`.

ghost use Rattle.std.specs.Prelude.{◌≡◌, ◌≢◌, ◌≤◌, ◌∷◌, []};
ghost use Rattle.std.specs.Io.KnownBytes.{Appends};
ghost use Rattle.tim_base.specs.Kept.{KeepsFiles, NoCountFalls};
ghost use Rattle.tim_base.specs.Faults.{Rose};
ghost use Rattle.tim_base.specs.Sinks.{AppendsPrefix};
ghost use Rattle.tool_texts.specs.Ends.{EndsBy, Nothing, status_of};
ghost use Rattle.tool_stages.specs.Fetches.{HasFetched};
ghost use Rattle.lab_check.specs.Answers.{IsCheckAnswer};
ghost use Rattle.lab_check.specs.Found.{unread_text};

use crate::checked::checked;
use found_print::unread::{read_fault_object, too_long_object};
use std::alloc::Global;
use tim_base::shelf::Shelf;
use tim_base::sink::Sink;
use tool_texts::finish::{finish, stop};
use tool_texts::status::Status;
use tool_texts::stop::Stop;

// Writes the object of a file that is not read, or the line for memory.
fn unread<W: Sink>(out: &mut W, why: Stop) -> Status
    requires { status_of why ≢ Status.WriteFault }
    ensures told { result ≢ Status.WriteFault → (result ≡ status_of why) × Appends (W.taken out.old) (W.taken out.new) (unread_text why) }
    ensures prefix { result ≡ Status.WriteFault → AppendsPrefix (W.taken out.old) (W.taken out.new) (unread_text why) }
    ensures fault { result ≡ Status.WriteFault → Rose (W.faults out.old) (W.faults out.new) }
    ensures later { W.faults out.old ≤ W.faults out.new }
{
    match why {
        Stop::With {
            status: Status::ReadFault,
            line: _,
        } => finish(out, read_fault_object(), Status::ReadFault),
        Stop::With {
            status: Status::TooLong,
            line: _,
        } => finish(out, too_long_object(), Status::TooLong),
        _ => stop(out, why),
    }
}

/// Tells as one object of JSON on a line whether the program of a file is accepted, and if not, what `why` tells: the tool's own line,
/// where the fault is, what could stand there, or the rule, the labels and the chain. Want of memory has the tool's line.
pub fn check<S: Shelf, W: Sink>(alloc: Global, shelf: &mut S, out: &mut W, file: &str) -> Status
    ensures same { KeepsFiles (S.content shelf.old) (S.content shelf.new) }
    ensures later { NoCountFalls (S.faults shelf.old) (S.faults shelf.new) }
    ensures later_out { W.faults out.old ≤ W.faults out.new }
    ensures answered { EndsBy (W.taken out.old) (W.taken out.new) Nothing
        (IsCheckAnswer (λ name. Rose (S.faults shelf.old name) (S.faults shelf.new name)) (S.content shelf.old) file.now) result }
    ensures write { result ≡ Status.WriteFault → Rose (W.faults out.old) (W.faults out.new) }
    ensures fetched { HasFetched (file.now ∷ []) result (S.log shelf.old) (S.log shelf.new) }
{
    match checked(alloc, shelf, file) {
        Ok(answer) => finish(out, answer.text.as_slice(), answer.status),
        Err(why) => unread(out, why),
    }
}
