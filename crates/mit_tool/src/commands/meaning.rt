//! `meaning`: a program runs without its time, and its assignments are written while it runs.

ghost use Rattle.std.specs.Prelude.{◌≡◌, ◌≤◌, ◌∷◌, option_map};
ghost use Rattle.tim_base.specs.Kept.{KeepsFiles, NoCountFalls};
ghost use Rattle.tim_base.specs.Faults.{Rose};
ghost use Rattle.tool_words.specs.WordsAsked.{meaning};
ghost use Rattle.tool_texts.specs.Ends.{EndsBy};
ghost use Rattle.tool_stages.specs.Fetches.{HasFetched, named};
ghost use Rattle.mit_tool.specs.Logged.{HasWritten, AreLines, IsMeaningLine};
ghost use Rattle.mit_tool.specs.Commands.{IsAnswer, Before};

mod walk;

use crate::commands::meaning::walk::{WalkFault, walk};
use std::alloc::Global;
use tim_base::shelf::Shelf;
use tim_base::sink::Sink;
use tool_stages::started::source;
use tool_texts::finish::{finish, stop, stop_for_memory};
use tool_texts::status::Status;

/// Takes at most so many steps of the program of a file, from the first start of another one or from zeros.
pub fn meaning<S: Shelf, W: Sink>(
    alloc: Global,
    shelf: &mut S,
    out: &mut W,
    file: &str,
    starts: Option<&str>,
    steps: u64,
) -> Status
    ensures same { KeepsFiles (S.content shelf.old) (S.content shelf.new) }
    ensures later { NoCountFalls (S.faults shelf.old) (S.faults shelf.new) }
    ensures later_out { W.faults out.old ≤ W.faults out.new }
    ensures answered { EndsBy (W.taken out.old) (W.taken out.new) (Before (S.content shelf.old) (meaning file.now (option_map (λ s. s.now) starts.entry) steps))
        (IsAnswer (λ name. Rose (S.faults shelf.old name) (S.faults shelf.new name)) (S.content shelf.old)
        (meaning file.now (option_map (λ s. s.now) starts.entry) steps)) result }
    ensures write { result ≡ Status.WriteFault → Rose (W.faults out.old) (W.faults out.new) }
    ensures fetched { HasFetched (file.now ∷ named (option_map (λ s. s.now) starts.entry)) result (S.log shelf.old) (S.log shelf.new) }
    ensures pieces { HasWritten (AreLines IsMeaningLine) result (W.log out.old) (W.log out.new) }
{
    let (program, start) = match source(alloc, shelf, file, starts) {
        Ok(source) => source,
        Err(e) => return stop(out, e),
    };
    match walk(alloc, &program, start.memory.as_slice(), steps, out) {
        Ok(line) => finish(out, line.bytes(), Status::Done),
        Err(WalkFault::Memory) => stop_for_memory(out),
        Err(WalkFault::Sink) => Status::WriteFault,
    }
}
