//! From a file to its text and the program that it spells.

ghost use Rattle.std.specs.Prelude.{◌≡◌, ◌∷◌, [], IfOk, IfErr};
ghost use Rattle.tim_base.specs.Kept.{KeepsFiles, NoCountFalls};
ghost use Rattle.tim_base.specs.Faults.{Rose};
ghost use Rattle.tool_texts.specs.Ends.{IsStop};
ghost use Rattle.tool_stages.specs.Fetches.{Fetches};
ghost use Rattle.tool_stages.specs.Stages.{ProgramStops, Reads};

use mit_syntax::program::Program;
use std::alloc::Global;
use tim_base::shelf::Shelf;
use tool_stages::file::bytes_of;
use tool_stages::program::program_of;
use tool_texts::stop::Stop;

/// The bytes of a file, and the program that they spell.
#[derive(Drop)]
pub struct Source {
    pub text: Vec<u8>,
    pub program: Program,
}

/// Reads the program that a file holds, and keeps its text.
///
/// # Errors
/// Stops with `ReadFault`, `TooLong`, `Syntax` or `Memory`.
pub fn read_source<S: Shelf>(alloc: Global, shelf: &mut S, file: &str) -> Result<Source, Stop>
    ensures same { KeepsFiles (S.content shelf.old) (S.content shelf.new) }
    ensures later { NoCountFalls (S.faults shelf.old) (S.faults shelf.new) }
    ensures log { Fetches (file.now ∷ []) (S.log shelf.old) (S.log shelf.new) result }
    ensures ok { IfOk result (λ x. (reads : Reads (S.content shelf.old file.now) x.program) × (reads.bytes ≡ x.text.items)) }
    ensures stop { IfErr result (IsStop (ProgramStops (Rose (S.faults shelf.old file.now) (S.faults shelf.new file.now)) (S.content shelf.old file.now))) }
{
    let text = match bytes_of(alloc, shelf, file, b"program") {
        Ok(text) => text,
        Err(stop) => return Err(stop),
    };
    match program_of(alloc, &text) {
        Ok(program) => Ok(Source { text, program }),
        Err(stop) => Err(stop),
    }
}
