//! The command `why --of`.

ghost use Rattle.std.specs.Prelude.{◌≡◌, ◌≤◌, ◌∷◌, [], ℕ, List, None, false, IfOk, IfErr};
ghost use Rattle.tim_base.specs.Kept.{KeepsFiles, NoCountFalls};
ghost use Rattle.tim_base.specs.Faults.{Rose};
ghost use Rattle.tool_texts.specs.Ends.{EndsBy, IsStop, Nothing, status_of};
ghost use Rattle.tool_stages.specs.Fetches.{Fetches, HasFetched, is_read_fault};
ghost use Rattle.lab_why.specs.Names.{named};
ghost use Rattle.lab_why.specs.Origins.{IsOriginAnswer, NameStops};

use crate::names::{named, no_name};
use crate::origins::label_text;
use crate::source::{Source, read_source};
use label_infer::infer::infer;
use mit_syntax::program::Program;
use mit_syntax::tokens::tokens;
use std::alloc::Global;
use tim_base::shelf::Shelf;
use tim_base::sink::Sink;
use tool_texts::finish::tell;
use tool_texts::status::Status;
use tool_texts::stop::{Stop, no_memory};

// The stop where a word names nothing.
fn name_stop(alloc: Global, p: &Program) -> Stop
    ensures stop { (w : List ℕ) → named p.now w ≡ None → IsStop (NameStops p.now w) result }
    ensures read { is_read_fault (status_of result) ≡ false }
{
    match no_name(alloc, p) {
        Ok(lines) => Stop::Misnamed(lines),
        Err(_) => no_memory(),
    }
}

// The text on a label of the program of a file.
fn origin_text<S: Shelf>(
    alloc: Global,
    shelf: &mut S,
    file: &str,
    word: &str,
) -> Result<Vec<u8>, Stop>
    ensures same { KeepsFiles (S.content shelf.old) (S.content shelf.new) }
    ensures later { NoCountFalls (S.faults shelf.old) (S.faults shelf.new) }
    ensures log { Fetches (file.now ∷ []) (S.log shelf.old) (S.log shelf.new) result }
    ensures text { IfOk result (λ v. IsOriginAnswer (λ name. Rose (S.faults shelf.old name) (S.faults shelf.new name)) (S.content shelf.old) file.now word.now
        Status.Done v.items) }
    ensures stop { IfErr result (IsStop (IsOriginAnswer (λ name. Rose (S.faults shelf.old name) (S.faults shelf.new name)) (S.content shelf.old) file.now
        word.now)) }
{
    let Source { text, program } = read_source(alloc, shelf, file)?;
    let Some(spot) = named(&program, word) else {
        return Err(name_stop(alloc, &program));
    };
    let Ok(labelled) = infer(alloc, program) else {
        return Err(no_memory());
    };
    // The text spells a program, so it has tokens.
    let Ok(tokens) = tokens(alloc, text.as_slice()) else {
        return Err(no_memory());
    };
    match label_text(
        alloc,
        text.as_slice(),
        tokens.as_slice(),
        &labelled,
        word.as_bytes(),
        &spot,
    ) {
        Ok(lines) => Ok(lines),
        Err(_) => Err(no_memory()),
    }
}

/// Tells which label the least labelling of the program of a file gives to a variable, an array or the level of a
/// mitigate, and by which chains it comes from labels that are written.
pub fn why_of<S: Shelf, W: Sink>(
    alloc: Global,
    shelf: &mut S,
    out: &mut W,
    file: &str,
    word: &str,
) -> Status
    ensures same { KeepsFiles (S.content shelf.old) (S.content shelf.new) }
    ensures later { NoCountFalls (S.faults shelf.old) (S.faults shelf.new) }
    ensures later_out { W.faults out.old ≤ W.faults out.new }
    ensures answered { EndsBy (W.taken out.old) (W.taken out.new) Nothing
        (IsOriginAnswer (λ name. Rose (S.faults shelf.old name) (S.faults shelf.new name)) (S.content shelf.old) file.now word.now) result }
    ensures write { result ≡ Status.WriteFault → Rose (W.faults out.old) (W.faults out.new) }
    ensures fetched { HasFetched (file.now ∷ []) result (S.log shelf.old) (S.log shelf.new) }
{
    let made = origin_text(alloc, shelf, file, word);
    tell(out, made)
}
