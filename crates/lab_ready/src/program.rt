//! From a program to its image and the label that is observed.

ghost use Rattle.std.specs.Prelude.{◌≡◌, ◌≤◌, ℕ, List, Option, Some, length, IfOk, IfErr};
ghost use Rattle.tim_base.specs.Told.{limit};
ghost use Rattle.tool_texts.specs.Ends.{IsStop};
ghost use Rattle.tool_stages.specs.Stages.{Observes, Reads};
ghost use Rattle.lab_ready.specs.Answer.{most_instructions};
ghost use Rattle.lab_ready.specs.Begun.{BeginStops, IsBegun, IsImageOf};

use crate::begun::Begun;
use crate::typing::{Typing, type_program};
use code_lower::lower::{LowerFault, lower};
use lab_runs::label::label_named;
use lab_why::faulty::joined;
use lab_why::starts::Told;
use label_lattice::label::Label;
use mit_syntax::program::Program;
use std::alloc::Global;
use text_base::pos::Memory;
use timing_types::typed::Typed;
use tool_stages::compiled::Compiled;
use tool_texts::lines::too_long_image;
use tool_texts::status::Status;
use tool_texts::stop::{Stop, no_memory};

// How many instructions an image may have.
fn most_instructions() -> &'static [u8]
    ensures { result.now ≡ most_instructions }
{
    b"expected at most 200000\n"
}

// The image of an accepted program, or that it is too long.
fn image_of(alloc: Global, typed: Typed, observer: Label) -> Result<Begun, Memory>
    ensures { IfOk result (IsImageOf typed.labelled observer) }
{
    match lower(alloc, &typed) {
        Ok(image) => Ok(Begun::Goes(
            Compiled {
                typed,
                image,
                observer: Some(observer),
            },
            observer,
        )),
        Err(LowerFault::TooLong(count)) => {
            let line = too_long_image(count);
            Ok(Begun::Ends(Told {
                status: Status::TooLong,
                text: joined(alloc, line.bytes(), most_instructions())?,
            }))
        }
        Err(LowerFault::Memory) => Err(Memory),
    }
}

// What a program comes to, of which an observer sees what flows to this label.
fn observed_begun(
    alloc: Global,
    text: &[u8],
    program: Program,
    observer: Label,
) -> Result<Begun, Memory>
    requires { length text.now ≤ limit }
    ensures { IfOk result (λ x. (content : Option (Option (List ℕ))) (word : List ℕ) (reads : Reads content program) → reads.bytes ≡ text.now
        → Observes program.order (Some word) (Some observer) → IsBegun content word x) }
{
    match type_program(alloc, text, program)? {
        Typing::Accepted(typed) => image_of(alloc, typed, observer),
        Typing::Refused(lines) => Ok(Begun::Ends(Told {
            status: Status::Refused,
            text: lines,
        })),
    }
}

/// What the program of a text comes to.
///
/// # Errors
/// Stops where no label has the observer's name, or with `Memory`.
pub(crate) fn program_begun(
    alloc: Global,
    text: &[u8],
    program: Program,
    observer: &str,
) -> Result<Begun, Stop>
    requires { length text.now ≤ limit }
    ensures told { IfOk result (λ x. (content : Option (Option (List ℕ))) (reads : Reads content program) → reads.bytes ≡ text.now
        → IsBegun content observer.now x) }
    ensures stop { IfErr result (λ e. (content : Option (Option (List ℕ))) → Reads content program → IsStop (BeginStops ⊥ content observer.now) e) }
{
    let label = match label_named(alloc, program.lattice(), b"observer", observer) {
        Ok(label) => label,
        Err(stop) => return Err(stop),
    };
    match observed_begun(alloc, text, program, label) {
        Ok(begun) => Ok(begun),
        Err(_) => Err(no_memory()),
    }
}
