//! From a file to what makes environments of the machine that it describes.

ghost use Rattle.std.specs.Prelude.{◌≡◌, ◌≢◌, ◌≤◌, ◌∷◌, [], ℕ, List, Option, IfOk, IfErr, length};
ghost use Rattle.tim_base.specs.Kept.{KeepsFiles, NoCountFalls};
ghost use Rattle.tim_base.specs.Faults.{Rose};
ghost use Rattle.tim_base.specs.Told.{limit, IsTold};
ghost use Rattle.machine_file.specs.Files.{Refused};
ghost use Rattle.tool_texts.specs.Ends.{IsStop};
ghost use Rattle.tool_stages.specs.Fetches.{Fetches};
ghost use Rattle.machine_stage.specs.Stage.{MachineIs, MachineStops};

use crate::lines;
use hardware::make::MakeHardware;
use machine_file::fault::MachineFault;
use machine_file::read::read_machine;
use std::alloc::Global;
use tim_base::shelf::Shelf;
use tool_stages::file::bytes_of;
use tool_texts::status::Status;
use tool_texts::stop::{Stop, no_memory};

// The stop for bytes that describe no machine.
fn machine_stop(fault: MachineFault) -> Stop
    ensures { (content : Option (Option (List ℕ))) (bytes : List ℕ) → IsTold content bytes → length bytes ≤ limit
        → (fault ≢ MachineFault.Memory → Refused bytes fault) → IsStop (MachineStops ⊥ content) result }
{
    match fault {
        MachineFault::Memory => no_memory(),
        _ => Stop::With {
            status: Status::Starts,
            line: lines::machine_fault(fault),
        },
    }
}

// The machine that bytes describe.
fn machine_in(alloc: Global, bytes: &[u8]) -> Result<MakeHardware, Stop>
    requires { length bytes.now ≤ limit }
    ensures ok { IfOk result (λ m. (content : Option (Option (List ℕ))) → IsTold content bytes.now → MachineIs content m) }
    ensures stop { IfErr result (λ e. (content : Option (Option (List ℕ))) → IsTold content bytes.now → IsStop (MachineStops ⊥ content) e) }
{
    match read_machine(alloc, bytes) {
        Ok(hardware) => Ok(MakeHardware { hardware }),
        Err(fault) => Err(machine_stop(fault)),
    }
}

/// What makes environments of the machine that a file describes.
///
/// # Errors
/// Stops with `ReadFault`, `TooLong`, `Starts` or `Memory`.
#[inline(never)]
pub fn machine<S: Shelf>(alloc: Global, shelf: &mut S, file: &str) -> Result<MakeHardware, Stop>
    ensures same { KeepsFiles (S.content shelf.old) (S.content shelf.new) }
    ensures later { NoCountFalls (S.faults shelf.old) (S.faults shelf.new) }
    ensures log { Fetches (file.now ∷ []) (S.log shelf.old) (S.log shelf.new) result }
    ensures ok { IfOk result (MachineIs (S.content shelf.old file.now)) }
    ensures stop { IfErr result (IsStop (MachineStops (Rose (S.faults shelf.old file.now) (S.faults shelf.new file.now)) (S.content shelf.old file.now))) }
{
    let bytes = match bytes_of(alloc, shelf, file, b"machine") {
        Ok(bytes) => bytes,
        Err(stop) => return Err(stop),
    };
    match machine_in(alloc, &bytes) {
        Ok(machine) => Ok(machine),
        Err(stop) => Err(stop),
    }
}
