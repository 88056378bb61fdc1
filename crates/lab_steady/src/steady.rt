//! The command `steady`.

ghost use Rattle.std.specs.Prelude.{◌≡◌, ◌≤◌, ◌∷◌, [], option_map};
ghost use Rattle.tim_base.specs.Kept.{KeepsFiles, NoCountFalls};
ghost use Rattle.tim_base.specs.Faults.{Rose};
ghost use Rattle.tool_texts.specs.Ends.{EndsBy, Nothing};
ghost use Rattle.tool_stages.specs.Fetches.{HasFetched};
ghost use Rattle.lab_steady.specs.Answer.{IsSteadyAnswer, parts_or};

use crate::judge::Verdict;
use crate::program::steady_by;
use std::alloc::Global;
use tim_base::shelf::Shelf;
use tim_base::sink::Sink;
use tool_texts::finish::{finish, stop};
use tool_texts::status::Status;

// The name of the label below which environments agree.
fn parts_named<'a>(parts: Option<&'a str>, observer: &'a str) -> &'a str
    ensures { result.now ≡ parts_or (option_map (λ s. s.now) parts.entry) observer.now }
{
    match parts {
        Some(parts) => parts,
        None => observer,
    }
}

/// Tells whether the program of a file, with its least labels, takes the same time from all starts that agree for an
/// observer, where environments agree in what they keep for labels that flow to `parts`, or to the observer where
/// `parts` is left out; and if it may not, which command is the first one, why, and which variable is to blame. The
/// program need not be typed. With `whole` its runs end at one cycle too. With `constant` operators may cost other than
/// by the machine's table: those that the word names the same whatever their operands are, and others by their operands.
///
/// `answered`: the status and the text are the answer, in the order of its refusals, from what the shelf is told to
/// hold. `yes_is_worth` says what is true of the runs of a program where the answer is a yes.
pub fn steady<S: Shelf, W: Sink>(
    alloc: Global,
    shelf: &mut S,
    out: &mut W,
    file: &str,
    observer: &str,
    parts: Option<&str>,
    constant: Option<&str>,
    whole: bool,
) -> Status
    ensures same { KeepsFiles (S.content shelf.old) (S.content shelf.new) }
    ensures later { NoCountFalls (S.faults shelf.old) (S.faults shelf.new) }
    ensures later_out { W.faults out.old ≤ W.faults out.new }
    ensures answered { EndsBy (W.taken out.old) (W.taken out.new) Nothing
        (IsSteadyAnswer (option_map (λ s. s.now) constant.entry) (λ name. Rose (S.faults shelf.old name) (S.faults shelf.new name))
        (S.content shelf.old) file.now observer.now (option_map (λ s. s.now) parts.entry) whole) result }
    ensures write { result ≡ Status.WriteFault → Rose (W.faults out.old) (W.faults out.new) }
    ensures fetched { HasFetched (file.now ∷ []) result (S.log shelf.old) (S.log shelf.new) }
{
    let parts = parts_named(parts, observer);
    match steady_by(alloc, shelf, file, observer, parts, constant, whole) {
        Ok(Verdict::Steady(text)) => finish(out, text.as_slice(), Status::Done),
        Ok(Verdict::Unsteady(text)) => finish(out, text.as_slice(), Status::Refused),
        Err(e) => stop(out, e),
    }
}
