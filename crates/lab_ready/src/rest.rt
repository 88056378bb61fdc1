//! From a start file to what is told of an audit.

ghost use Rattle.std.specs.Prelude.{◌≡◌, ◌≢◌, ◌≤◌, ◌<◌, ◌∷◌, [], ℕ, List, Option, Some, Err, length, IfOk, IfErr};
ghost use Rattle.run_limits.specs.Cycles.{IsCycles};
ghost use Rattle.tim_base.specs.Kept.{KeepsFiles, NoCountFalls};
ghost use Rattle.tim_base.specs.Faults.{Rose};
ghost use Rattle.tim_base.specs.Told.{limit, IsTold};
ghost use Rattle.start_file.specs.Starts.{Gives};
ghost use Rattle.tool_texts.specs.Ends.{IsStop};
ghost use Rattle.tool_texts.specs.Texts.{starts};
ghost use Rattle.tool_stages.specs.Fetches.{Fetches, FileStops};
ghost use Rattle.tool_stages.specs.Stages.{HasImage};
ghost use Rattle.lab_why.specs.Starts.{HasStartsTold};
ghost use Rattle.lab_ready.specs.Answer.{IsRest};

use crate::ready::audit_told;
use lab_why::starts::{Told, faulty};
use label_lattice::label::Label;
use mit_syntax::program::Program;
use run_watch::Watch;
use start_file::fault::StartFault;
use start_file::starts::read_starts;
use std::alloc::Global;
use text_base::pos::Memory;
use tim_base::shelf::Shelf;
use tool_stages::compiled::Compiled;
use tool_stages::file::bytes_of;
use tool_stages::prepared::Prepared;
use tool_stages::setting::Setting;
use tool_texts::status::Status;
use tool_texts::stop::{Stop, no_memory};

// What is told of bytes that are no starts of a program.
fn not_starts(
    alloc: Global,
    bytes: &[u8],
    program: &Program,
    fault: StartFault,
) -> Result<Told, Memory>
    requires short { length bytes.now ≤ limit }
    requires fault { fault ≢ StartFault.Memory → Gives program.now bytes.now (Err fault) }
    ensures status { IfOk result (λ x. x.status ≡ Status.Starts) }
    ensures told { IfOk result (λ x. (content : Option (Option (List ℕ))) → IsTold content bytes.now → HasStartsTold content program.now x.text.items) }
{
    match fault {
        StartFault::Memory => Err(Memory),
        _ => faulty(alloc, bytes, program, fault),
    }
}

// What is told of the bytes of a start file.
fn bytes_told<W: Watch>(
    alloc: Global,
    bytes: &[u8],
    compiled: Compiled,
    observer: Label,
    setting: Setting,
    watch: &W,
) -> Result<Told, Memory>
    requires short { length bytes.now ≤ limit }
    requires cycles { IsCycles setting.budget }
    requires image { HasImage compiled.typed.labelled compiled.image }
    requires observer { observer.number < compiled.typed.labelled.program.order.size }
    ensures { IfOk result (λ x. (content : Option (Option (List ℕ))) → IsTold content bytes.now
        → IsRest ⊥ content setting.env setting.budget compiled.typed.labelled.program compiled.typed.labelled (Some observer) x.status x.text.items) }
{
    let program = compiled.typed.labelled().program();
    match read_starts(alloc, bytes, program) {
        Ok(starts) => {
            let prepared = Prepared {
                compiled,
                observer,
                starts,
            };
            audit_told(alloc, &prepared, setting, watch)
        }
        Err(fault) => not_starts(alloc, bytes, program, fault),
    }
}

/// What is told of a start file for a program that has an image. A watch is told how far each run has come.
///
/// # Errors
/// Stops where the file is not read or too long, or with `Memory`.
pub(crate) fn rest_told<S: Shelf, W: Watch>(
    alloc: Global,
    shelf: &mut S,
    file: &str,
    compiled: Compiled,
    observer: Label,
    setting: Setting,
    watch: &W,
) -> Result<Told, Stop>
    requires cycles { IsCycles setting.budget }
    requires image { HasImage compiled.typed.labelled compiled.image }
    requires observer { observer.number < compiled.typed.labelled.program.order.size }
    ensures same { KeepsFiles (S.content shelf.old) (S.content shelf.new) }
    ensures later { NoCountFalls (S.faults shelf.old) (S.faults shelf.new) }
    ensures log { Fetches (file.now ∷ []) (S.log shelf.old) (S.log shelf.new) result }
    ensures told { IfOk result (λ x. IsRest (Rose (S.faults shelf.old file.now) (S.faults shelf.new file.now)) (S.content shelf.old file.now)
        setting.env setting.budget compiled.typed.labelled.program compiled.typed.labelled (Some observer) x.status x.text.items) }
    ensures read { IfOk result (λ x. IsRest ⊥ (S.content shelf.old file.now) setting.env setting.budget compiled.typed.labelled.program
        compiled.typed.labelled (Some observer) x.status x.text.items) }
    ensures stop { IfErr result (IsStop (FileStops (Rose (S.faults shelf.old file.now) (S.faults shelf.new file.now)) (S.content shelf.old file.now)
        starts)) }
{
    let bytes = match bytes_of(alloc, shelf, file, b"starts") {
        Ok(bytes) => bytes,
        Err(stop) => return Err(stop),
    };
    match bytes_told(alloc, bytes.as_slice(), compiled, observer, setting, watch) {
        Ok(told) => Ok(told),
        Err(Memory) => Err(no_memory()),
    }
}
