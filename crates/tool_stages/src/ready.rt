//! From a file of ready cycles to its runs.

ghost use Rattle.std.specs.Prelude.{◌≡◌, ◌≢◌, ◌≤◌, ◌∷◌, [], ℕ, List, Option, Some, length, IfOk, IfErr, vec_len};
ghost use Rattle.tim_base.specs.Kept.{KeepsFiles, NoCountFalls};
ghost use Rattle.tim_base.specs.Faults.{Rose};
ghost use Rattle.tim_base.specs.Told.{limit, IsTold};
ghost use Rattle.black_box.specs.declared.fault.ReadyFault.TheVariants as ready;
ghost use Rattle.black_box.specs.Files.{lists, refusal};
ghost use Rattle.tool_texts.specs.Ends.{IsStop};
ghost use Rattle.tool_stages.specs.Fetches.{Fetches};
ghost use Rattle.tool_stages.specs.Stages.{HoldsRuns, ReadyStops};

use crate::file::bytes_of;
use black_box::fault::ReadyFault;
use black_box::ready::read_ready;
use run_limits::MAX_RUNS;
use std::alloc::Global;
use tim_base::shelf::Shelf;
use tool_texts::lines;
use tool_texts::status::Status;
use tool_texts::stop::{Stop, no_memory};

// The stop for bytes that hold no runs.
fn ready_stop(fault: ReadyFault) -> Stop
    ensures { (content : Option (Option (List ℕ))) (bytes : List ℕ) → IsTold content bytes → length bytes ≤ limit
        → (fault ≢ ready.Memory → refusal bytes ≡ Some fault) → IsStop (ReadyStops ⊥ content) result }
{
    match fault {
        ReadyFault::Memory => no_memory(),
        _ => Stop::With {
            status: Status::Starts,
            line: lines::report::ready_fault(fault),
        },
    }
}

/// The runs that a file holds, at most `MAX_RUNS`, each with the cycles at which its events are ready.
///
/// # Errors
/// Stops with `ReadFault`, `TooLong`, `Starts` or `Memory`.
pub fn ready_runs<S: Shelf>(alloc: Global, shelf: &mut S, file: &str) -> Result<Vec<Vec<u64>>, Stop>
    ensures same { KeepsFiles (S.content shelf.old) (S.content shelf.new) }
    ensures later { NoCountFalls (S.faults shelf.old) (S.faults shelf.new) }
    ensures log { Fetches (file.now ∷ []) (S.log shelf.old) (S.log shelf.new) result }
    ensures ok { IfOk result (λ v. HoldsRuns (S.content shelf.old file.now) (lists v)) }
    ensures few { IfOk result (λ v. vec_len v ≤ MAX_RUNS) }
    ensures stop { IfErr result (IsStop (ReadyStops (Rose (S.faults shelf.old file.now) (S.faults shelf.new file.now)) (S.content shelf.old file.now))) }
{
    let bytes = match bytes_of(alloc, shelf, file, b"ready") {
        Ok(bytes) => bytes,
        Err(stop) => return Err(stop),
    };
    match read_ready(alloc, &bytes) {
        Ok(runs) => Ok(runs),
        Err(fault) => Err(ready_stop(fault)),
    }
}
