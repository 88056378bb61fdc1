//! From a file to its bytes.

ghost use Rattle.std.specs.Prelude.{◌≡◌, ◌≤◌, ◌∷◌, [], ℕ, List, Option, length, IfOk, IfErr};
ghost use Rattle.tim_base.specs.Kept.{KeepsFiles, NoCountFalls};
ghost use Rattle.tim_base.specs.Faults.{Rose};
ghost use Rattle.tim_base.specs.Told.{limit, IsTold, IsTooLong};
ghost use Rattle.tool_texts.specs.Ends.{IsStop, status_of};
ghost use Rattle.tool_texts.specs.Texts.{File, file_name};
ghost use Rattle.tool_stages.specs.Fetches.{Fetches, FileStops, is_failure, is_read_fault};

use std::alloc::Global;
use tim_base::shelf::{FetchFault, Shelf};
use tool_texts::lines;
use tool_texts::status::Status;
use tool_texts::stop::{Stop, no_memory};

// The stop for a file that gives no bytes, by what the line of its fault calls it.
fn file_stop(kind: &[u8], fault: FetchFault) -> Stop
    requires { length kind.now ≤ 32 }
    ensures stop { (f : File) (content : Option (Option (List ℕ))) → kind.now ≡ file_name f → (fault ≡ FetchFault.TooLong → IsTooLong content)
        → IsStop (FileStops (fault ≡ FetchFault.Failed) content f) result }
    ensures failed { is_read_fault (status_of result) ≡ is_failure fault }
{
    match fault {
        FetchFault::Failed => Stop::With {
            status: Status::ReadFault,
            line: lines::read_fault(kind),
        },
        FetchFault::TooLong => Stop::With {
            status: Status::TooLong,
            line: lines::too_long(kind),
        },
        FetchFault::Memory => no_memory(),
    }
}

/// The bytes that a file holds, at most `LIMIT`. The line of a fault calls the file by its kind: `program`, `starts`,
/// `ready`, `certificate` or `machine`.
///
/// # Errors
/// Stops with `ReadFault`, `TooLong` or `Memory`.
pub fn bytes_of<S: Shelf>(
    alloc: Global,
    shelf: &mut S,
    file: &str,
    kind: &[u8],
) -> Result<Vec<u8>, Stop>
    requires { length kind.now ≤ 32 }
    ensures same { KeepsFiles (S.content shelf.old) (S.content shelf.new) }
    ensures later { NoCountFalls (S.faults shelf.old) (S.faults shelf.new) }
    ensures log { Fetches (file.now ∷ []) (S.log shelf.old) (S.log shelf.new) result }
    ensures ok { IfOk result (λ v. IsTold (S.content shelf.old file.now) v.items) }
    ensures short { IfOk result (λ v. length v.items ≤ limit) }
    ensures stop { IfErr result (λ e. (f : File) → kind.now ≡ file_name f
        → IsStop (FileStops (Rose (S.faults shelf.old file.now) (S.faults shelf.new file.now)) (S.content shelf.old file.now) f) e) }
{
    let mut bytes = Vec::new(alloc);
    match shelf.fetch(alloc, file, &mut bytes) {
        Ok(()) => Ok(bytes),
        Err(fault) => Err(file_stop(kind, fault)),
    }
}
