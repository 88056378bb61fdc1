//! From a file to the image of its program and the label that is observed, or to what is told in place of that.

ghost use Rattle.std.specs.Prelude.{◌≡◌, ◌≤◌, ◌∷◌, [], ℕ, List, Option, length, IfOk, IfErr};
ghost use Rattle.tim_base.specs.Kept.{KeepsFiles, NoCountFalls};
ghost use Rattle.tim_base.specs.Faults.{Rose};
ghost use Rattle.tim_base.specs.Told.{limit, IsTold};
ghost use Rattle.tool_texts.specs.Ends.{IsStop};
ghost use Rattle.tool_stages.specs.Fetches.{Fetches};
ghost use Rattle.lab_ready.specs.Begun.{BeginStops, IsBegun};

use crate::program::program_begun;
use lab_why::faulty::{Spelled, spelling};
use lab_why::starts::Told;
use label_lattice::label::Label;
use std::alloc::Global;
use tim_base::shelf::Shelf;
use tool_stages::compiled::Compiled;
use tool_stages::file::bytes_of;
use tool_texts::status::Status;
use tool_texts::stop::{Stop, no_memory};

/// What a program comes to.
#[derive(Drop)]
pub enum Begun {
    /// It is accepted: its image, and the label that is observed.
    Goes(Compiled, Label),
    /// This is told in place of that.
    Ends(Told),
}

// What the program of a text comes to.
fn text_begun(alloc: Global, text: &[u8], observer: &str) -> Result<Begun, Stop>
    requires { length text.now ≤ limit }
    ensures told { IfOk result (λ x. (content : Option (Option (List ℕ))) → IsTold content text.now → IsBegun content observer.now x) }
    ensures stop { IfErr result (λ e. (content : Option (Option (List ℕ))) → IsTold content text.now → IsStop (BeginStops ⊥ content observer.now) e) }
{
    match spelling(alloc, text) {
        Ok(Spelled::Spells(program)) => program_begun(alloc, text, program, observer),
        Ok(Spelled::Faulty(lines)) => Ok(Begun::Ends(Told {
            status: Status::Syntax,
            text: lines,
        })),
        Err(_) => Err(no_memory()),
    }
}

/// What the program of a file comes to.
///
/// # Errors
/// Stops where the file is not read or too long, where no label has the observer's name, or with `Memory`.
pub(crate) fn begin<S: Shelf>(
    alloc: Global,
    shelf: &mut S,
    file: &str,
    observer: &str,
) -> Result<Begun, Stop>
    ensures same { KeepsFiles (S.content shelf.old) (S.content shelf.new) }
    ensures later { NoCountFalls (S.faults shelf.old) (S.faults shelf.new) }
    ensures log { Fetches (file.now ∷ []) (S.log shelf.old) (S.log shelf.new) result }
    ensures told { IfOk result (IsBegun (S.content shelf.old file.now) observer.now) }
    ensures stop { IfErr result (IsStop (BeginStops (Rose (S.faults shelf.old file.now) (S.faults shelf.new file.now)) (S.content shelf.old file.now)
        observer.now)) }
{
    let text = match bytes_of(alloc, shelf, file, b"program") {
        Ok(text) => text,
        Err(stop) => return Err(stop),
    };
    match text_begun(alloc, text.as_slice(), observer) {
        Ok(begun) => Ok(begun),
        Err(stop) => Err(stop),
    }
}
