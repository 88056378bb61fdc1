//! What audits of a program begin with.

ghost use Rattle.std.specs.Prelude.{◌≡◌, ◌∷◌, [], Some, IfOk, IfErr, OnOk, IsTrue, map};
ghost use Rattle.tim_base.specs.Kept.{KeepsFiles, NoCountFalls};
ghost use Rattle.tim_base.specs.Faults.{Rose};
ghost use Rattle.start_file.specs.Starts.{seen};
ghost use Rattle.tool_texts.specs.Ends.{IsStop, status_of};
ghost use Rattle.tool_stages.specs.Fetches.{Fetches};
ghost use Rattle.tool_stages.specs.Begins.{IsPrepared, CanAudit, PrepareStops};
ghost use Rattle.tool_stages.specs.Accepted.{is_past_typing, IsAccepted};

use crate::compiled::{Compiled, compile};
use crate::starts::all_starts;
use label_lattice::label::Label;
use start_file::start::Start;
use std::alloc::Global;
use tim_base::shelf::Shelf;
use tool_texts::stop::Stop;

/// An accepted program with its image, the label that is observed, and starts.
#[derive(Drop)]
pub struct Prepared {
    pub compiled: Compiled,
    pub observer: Label,
    pub starts: Vec<Start>,
}

/// An accepted program of a file, the label of an observer, and the starts that another file gives.
///
/// # Errors
/// Stops with the first refusal, or with `Memory`.
pub fn prepare<S: Shelf>(
    alloc: Global,
    shelf: &mut S,
    file: &str,
    starts: &str,
    name: &str,
) -> Result<Prepared, Stop>
    ensures same { KeepsFiles (S.content shelf.old) (S.content shelf.new) }
    ensures later { NoCountFalls (S.faults shelf.old) (S.faults shelf.new) }
    ensures log { Fetches (file.now ∷ starts.now ∷ []) (S.log shelf.old) (S.log shelf.new) result }
    ensures ok { IfOk result (λ r. IsPrepared (S.content shelf.old) file.now name.now (S.content shelf.old starts.now) r.compiled.typed.labelled r.observer
        r.compiled.image (map seen r.starts.items)) }
    ensures observed { IfOk result (λ r. r.compiled.observer ≡ Some r.observer) }
    ensures fit { IfOk result (λ r. CanAudit r.compiled.typed.labelled r.observer r.compiled.image (map seen r.starts.items)) }
    ensures stop { IfErr result (IsStop (PrepareStops (λ name. Rose (S.faults shelf.old name) (S.faults shelf.new name)) (S.content shelf.old) file.now name.now
        (Rose (S.faults shelf.old starts.now) (S.faults shelf.new starts.now)) (S.content shelf.old starts.now))) }
    ensures accepted { OnOk result (IsAccepted (S.content shelf.old file.now)) }
    ensures accepted_stop { IfErr result (λ e. IsTrue (is_past_typing (status_of e)) → IsAccepted (S.content shelf.old file.now)) }
{
    let compiled = match compile(alloc, shelf, file, Some(name)) {
        Ok(compiled) => compiled,
        Err(stop) => return Err(stop),
    };
    let observer = compiled.observer.unwrap();
    match all_starts(alloc, shelf, starts, compiled.typed.labelled().program()) {
        Ok(starts) => Ok(Prepared {
            compiled,
            observer,
            starts,
        }),
        Err(stop) => Err(stop),
    }
}
