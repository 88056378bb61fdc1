//! `check`: whether a program is accepted.

ghost use Rattle.std.specs.Prelude.{IfOk, IfErr, ◌∷◌, []};
ghost use Rattle.tim_base.specs.Kept.{KeepsFiles, NoCountFalls};
ghost use Rattle.tim_base.specs.Faults.{Rose};
ghost use Rattle.tool_words.specs.WordsAsked.{check};
ghost use Rattle.tool_texts.specs.Ends.{IsStop};
ghost use Rattle.tool_stages.specs.Begins.{CheckStops};
ghost use Rattle.tool_stages.specs.Fetches.{Fetches};
ghost use Rattle.mit_tool.specs.Commands.{IsAnswer};

use std::alloc::Global;
use tim_base::line::Line;
use tim_base::shelf::Shelf;
use tool_stages::program::read_program;
use tool_stages::types::typed;
use tool_texts::lines::accepted;
use tool_texts::status::Status;
use tool_texts::stop::Stop;

/// The line that tells that the program of a file is accepted.
///
/// # Errors
/// Stops with the first refusal, or with `Memory`.
pub fn check_line<S: Shelf>(alloc: Global, shelf: &mut S, file: &str) -> Result<Line, Stop>
    ensures same { KeepsFiles (S.content shelf.old) (S.content shelf.new) }
    ensures later { NoCountFalls (S.faults shelf.old) (S.faults shelf.new) }
    ensures log { Fetches (file.now ∷ []) (S.log shelf.old) (S.log shelf.new) result }
    ensures line { IfOk result (IsAnswer (λ name. Rose (S.faults shelf.old name) (S.faults shelf.new name)) (S.content shelf.old)
        (check file.now) Status.Done) }
    ensures stop { IfErr result (IsStop (CheckStops (λ name. Rose (S.faults shelf.old name) (S.faults shelf.new name)) (S.content shelf.old) file.now)) }
{
    let program = read_program(alloc, shelf, file)?;
    let line = accepted(program.commands(), program.mitigates());
    typed(alloc, program)?;
    Ok(line)
}
