//! The command `why`.

ghost use Rattle.std.specs.Prelude.{◌≡◌, ◌≤◌, ◌∷◌, []};
ghost use Rattle.tim_base.specs.Kept.{KeepsFiles, NoCountFalls};
ghost use Rattle.tim_base.specs.Faults.{Rose};
ghost use Rattle.tool_texts.specs.Ends.{EndsBy, Nothing};
ghost use Rattle.tool_stages.specs.Fetches.{HasFetched};
ghost use Rattle.lab_why.specs.Answers.{IsWhyAnswer};

use crate::explained::{Explained, explain};
use std::alloc::Global;
use tim_base::shelf::Shelf;
use tim_base::sink::Sink;
use tool_texts::finish::{finish, stop};
use tool_texts::lines::accepted;
use tool_texts::status::Status;

/// Tells whether the program of a file is accepted, and if not, which condition is broken first and by which chain of
/// conditions no labels can hold there. Of all such chains none is cheaper, and of those that are as cheap it is the
/// earliest. Where the text is no program, it tells what is wrong with it: the tool's own line, the line of the text with a mark under
/// the place, what stands there, and what could stand there or which limit is passed.
pub fn why<S: Shelf, W: Sink>(alloc: Global, shelf: &mut S, out: &mut W, file: &str) -> Status
    ensures same { KeepsFiles (S.content shelf.old) (S.content shelf.new) }
    ensures later { NoCountFalls (S.faults shelf.old) (S.faults shelf.new) }
    ensures later_out { W.faults out.old ≤ W.faults out.new }
    ensures answered { EndsBy (W.taken out.old) (W.taken out.new) Nothing
        (IsWhyAnswer (λ name. Rose (S.faults shelf.old name) (S.faults shelf.new name)) (S.content shelf.old) file.now) result }
    ensures write { result ≡ Status.WriteFault → Rose (W.faults out.old) (W.faults out.new) }
    ensures fetched { HasFetched (file.now ∷ []) result (S.log shelf.old) (S.log shelf.new) }
{
    match explain(alloc, shelf, file) {
        Ok(Explained::Accepted(typed)) => {
            let program = typed.labelled().program();
            let line = accepted(program.commands(), program.mitigates());
            finish(out, line.bytes(), Status::Done)
        }
        Ok(Explained::Refused(lines)) => finish(out, lines.as_slice(), Status::Refused),
        Ok(Explained::Faulty(lines)) => finish(out, lines.as_slice(), Status::Syntax),
        Err(e) => stop(out, e),
    }
}
