//! From a start file to starts.

ghost use Rattle.std.specs.Prelude.{◌≡◌, ◌≢◌, ◌≤◌, ◌∷◌, [], ℕ, List, Option, Err, All, IfOk, IfErr, length, map, option_map};
ghost use Rattle.tim_base.specs.Kept.{KeepsFiles, NoCountFalls};
ghost use Rattle.tim_base.specs.Faults.{Rose};
ghost use Rattle.tim_base.specs.Told.{limit, IsTold};
ghost use Rattle.mit_syntax.specs.Program.{Syntax};
ghost use Rattle.start_file.specs.declared.fault.StartFault.TheVariants as start;
ghost use Rattle.start_file.specs.Starts.{seen, Gives, IsFor};
ghost use Rattle.tool_texts.specs.Ends.{IsStop};
ghost use Rattle.tool_stages.specs.Fetches.{Fetches, named};
ghost use Rattle.tool_stages.specs.Stages.{zero_start, StartsAre, StartStops, FirstStart, FirstStops};

use crate::file::bytes_of;
use mit_syntax::program::Program;
use start_file::fault::StartFault;
use start_file::start::Start;
use start_file::starts::read_starts;
use std::alloc::{AllocError, Global};
use tim_base::shelf::Shelf;
use tool_texts::lines;
use tool_texts::status::Status;
use tool_texts::stop::{Stop, no_memory};

// The stop for bytes that are no starts.
fn start_stop(fault: StartFault) -> Stop
    ensures { (content : Option (Option (List ℕ))) (bytes : List ℕ) (p : Syntax) → IsTold content bytes → length bytes ≤ limit
        → (fault ≢ start.Memory → Gives p bytes (Err fault)) → IsStop (StartStops ⊥ content p) result }
{
    match fault {
        StartFault::Memory => no_memory(),
        _ => Stop::With {
            status: Status::Starts,
            line: lines::start_fault(fault),
        },
    }
}

/// The starts that bytes give for a program, in order, 1 to 4,096 of them.
///
/// # Errors
/// Stops with `Starts` or `Memory`.
pub fn starts_of(alloc: Global, bytes: &[u8], p: &Program) -> Result<Vec<Start>, Stop>
    requires { length bytes.now ≤ limit }
    ensures ok { IfOk result (λ ss. (content : Option (Option (List ℕ))) → IsTold content bytes.now → StartsAre content p.now (map seen ss.items)) }
    ensures valid { IfOk result (λ ss. All (IsFor p.now) (map seen ss.items)) }
    ensures stop { IfErr result (λ e. (content : Option (Option (List ℕ))) → IsTold content bytes.now → IsStop (StartStops ⊥ content p.now) e) }
{
    match read_starts(alloc, bytes, p) {
        Ok(starts) => Ok(starts),
        Err(fault) => Err(start_stop(fault)),
    }
}

/// The starts that a file gives for a program, in order.
///
/// # Errors
/// Stops with `ReadFault`, `TooLong`, `Starts` or `Memory`.
#[inline(never)]
pub fn all_starts<S: Shelf>(
    alloc: Global,
    shelf: &mut S,
    file: &str,
    p: &Program,
) -> Result<Vec<Start>, Stop>
    ensures same { KeepsFiles (S.content shelf.old) (S.content shelf.new) }
    ensures later { NoCountFalls (S.faults shelf.old) (S.faults shelf.new) }
    ensures log { Fetches (file.now ∷ []) (S.log shelf.old) (S.log shelf.new) result }
    ensures ok { IfOk result (λ ss. StartsAre (S.content shelf.old file.now) p.now (map seen ss.items)) }
    ensures valid { IfOk result (λ ss. All (IsFor p.now) (map seen ss.items)) }
    ensures stop { IfErr result (IsStop (StartStops (Rose (S.faults shelf.old file.now) (S.faults shelf.new file.now)) (S.content shelf.old file.now) p.now)) }
{
    let bytes = match bytes_of(alloc, shelf, file, b"starts") {
        Ok(bytes) => bytes,
        Err(stop) => return Err(stop),
    };
    match starts_of(alloc, &bytes, p) {
        Ok(starts) => Ok(starts),
        Err(stop) => Err(stop),
    }
}

// The start where all variables are 0 and nothing is touched.
fn zero_start(alloc: Global, p: &Program) -> Result<Start, AllocError>
    ensures value { IfOk result (λ s. seen s ≡ zero_start p.now) }
    ensures valid { IfOk result (λ s. IsFor p.now (seen s)) }
{
    let memory = vec![in alloc; 0i64; p.variables() as usize]?;
    Ok(Start {
        memory,
        touches: Vec::new(alloc),
    })
}

/// The first start of a file; without a file all variables are 0 and nothing is touched.
///
/// # Errors
/// Stops with `ReadFault`, `TooLong`, `Starts` or `Memory`.
pub fn first_start<S: Shelf>(
    alloc: Global,
    shelf: &mut S,
    file: Option<&str>,
    p: &Program,
) -> Result<Start, Stop>
    ensures same { KeepsFiles (S.content shelf.old) (S.content shelf.new) }
    ensures later { NoCountFalls (S.faults shelf.old) (S.faults shelf.new) }
    ensures log { Fetches (named (option_map (λ f. f.now) file.entry)) (S.log shelf.old) (S.log shelf.new) result }
    ensures ok { IfOk result (λ s. FirstStart (S.content shelf.old) (option_map (λ f. f.now) file.entry) p.now (seen s)) }
    ensures valid { IfOk result (λ s. IsFor p.now (seen s)) }
    ensures stop { IfErr result (IsStop (FirstStops (λ name. Rose (S.faults shelf.old name) (S.faults shelf.new name)) (S.content shelf.old)
        (option_map (λ f. f.now) file.entry) p.now)) }
{
    let Some(file) = file else {
        return match zero_start(alloc, p) {
            Ok(start) => Ok(start),
            Err(_) => Err(no_memory()),
        };
    };
    match all_starts(alloc, shelf, file, p) {
        Ok(mut starts) => Ok(starts.swap_remove(0)),
        Err(stop) => Err(stop),
    }
}
