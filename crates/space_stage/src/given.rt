//! From a start file to what it gives.

ghost use Rattle.std.specs.Prelude.{◌≡◌, ◌≢◌, ◌≤◌, ◌∷◌, [], ℕ, List, Option, Err, IfOk, IfErr, length};
ghost use Rattle.tim_base.specs.Kept.{KeepsFiles, NoCountFalls};
ghost use Rattle.tim_base.specs.Faults.{Rose};
ghost use Rattle.tim_base.specs.Told.{limit, IsTold};
ghost use Rattle.mit_syntax.specs.Program.{Syntax};
ghost use Rattle.start_file.specs.declared.fault.StartFault.TheVariants as start;
ghost use Rattle.start_file.specs.Shared.{GivesList};
ghost use Rattle.space_file.specs.declared.fault.SpaceFault.TheVariants as refused;
ghost use Rattle.space_file.specs.Files.{GivesSpace};
ghost use Rattle.tool_texts.specs.Ends.{IsStop};
ghost use Rattle.tool_stages.specs.Fetches.{Fetches};
ghost use Rattle.space_stage.specs.Given.{GivenStops, GivenIs, IsFitting, value_of};

use crate::lines::space_fault;
use mit_syntax::program::Program;
use space_file::fault::SpaceFault;
use space_file::read::read_space;
use space_starts::space::Space;
use start_file::fault::StartFault;
use start_file::shared::read_list;
use start_file::start::Start;
use std::alloc::Global;
use tim_base::shelf::Shelf;
use tool_stages::file::bytes_of;
use tool_texts::lines::start_fault;
use tool_texts::status::Status;
use tool_texts::stop::{Stop, no_memory};

/// What a start file gives: a list of starts, or a space of them.
#[derive(Drop)]
pub enum StartSet {
    List(Vec<Start>),
    Space(Space),
}

// The stop for bytes that are no list of starts.
fn start_stop(fault: StartFault) -> Stop
    requires { fault ≢ start.Version }
    ensures { (content : Option (Option (List ℕ))) (bytes : List ℕ) (p : Syntax) → IsTold content bytes → length bytes ≤ limit
        → (fault ≢ start.Memory → GivesList p bytes (Err fault)) → IsStop (GivenStops ⊥ content p) result }
{
    match fault {
        StartFault::Memory => no_memory(),
        _ => Stop::With {
            status: Status::Starts,
            line: start_fault(fault),
        },
    }
}

// The stop for bytes that are no space.
fn space_stop(fault: SpaceFault) -> Stop
    ensures { (content : Option (Option (List ℕ))) (bytes : List ℕ) (p : Syntax) → IsTold content bytes → length bytes ≤ limit
        → GivesList p bytes (Err start.Version) → (fault ≢ refused.Memory → GivesSpace p bytes (Err fault)) → IsStop (GivenStops ⊥ content p) result }
{
    match fault {
        SpaceFault::Memory => no_memory(),
        _ => Stop::With {
            status: Status::Starts,
            line: space_fault(fault),
        },
    }
}

// The space that bytes give whose version is none of a list of starts.
fn space_of(alloc: Global, bytes: &[u8], p: &Program) -> Result<StartSet, Stop>
    requires short { length bytes.now ≤ limit }
    requires version { GivesList p.now bytes.now (Err start.Version) }
    ensures ok { IfOk result (λ g. (content : Option (Option (List ℕ))) → IsTold content bytes.now → GivenIs content p.now (value_of g)) }
    ensures valid { IfOk result (λ g. IsFitting p.now (value_of g)) }
    ensures stop { IfErr result (λ e. (content : Option (Option (List ℕ))) → IsTold content bytes.now → IsStop (GivenStops ⊥ content p.now) e) }
{
    match read_space(alloc, bytes, p) {
        Ok(space) => Ok(StartSet::Space(space)),
        Err(fault) => Err(space_stop(fault)),
    }
}

// What bytes give.
fn given_of(alloc: Global, bytes: &[u8], p: &Program) -> Result<StartSet, Stop>
    requires { length bytes.now ≤ limit }
    ensures ok { IfOk result (λ g. (content : Option (Option (List ℕ))) → IsTold content bytes.now → GivenIs content p.now (value_of g)) }
    ensures valid { IfOk result (λ g. IsFitting p.now (value_of g)) }
    ensures stop { IfErr result (λ e. (content : Option (Option (List ℕ))) → IsTold content bytes.now → IsStop (GivenStops ⊥ content p.now) e) }
{
    match read_list(alloc, bytes, p) {
        Ok(starts) => Ok(StartSet::List(starts)),
        Err(fault) => match fault {
            StartFault::Version => space_of(alloc, bytes, p),
            _ => Err(start_stop(fault)),
        },
    }
}

/// What a start file gives for a program: a list of 1 to 4,096 starts, or where its version is none of a list, a space of at
/// most 2^40.
///
/// # Errors
/// Stops with `ReadFault`, `TooLong`, `Starts` or `Memory`.
pub fn given<S: Shelf>(
    alloc: Global,
    shelf: &mut S,
    file: &str,
    p: &Program,
) -> Result<StartSet, Stop>
    ensures same { KeepsFiles (S.content shelf.old) (S.content shelf.new) }
    ensures later { NoCountFalls (S.faults shelf.old) (S.faults shelf.new) }
    ensures log { Fetches (file.now ∷ []) (S.log shelf.old) (S.log shelf.new) result }
    ensures ok { IfOk result (λ g. GivenIs (S.content shelf.old file.now) p.now (value_of g)) }
    ensures valid { IfOk result (λ g. IsFitting p.now (value_of g)) }
    ensures stop { IfErr result (IsStop (GivenStops (Rose (S.faults shelf.old file.now) (S.faults shelf.new file.now)) (S.content shelf.old file.now) p.now)) }
{
    let bytes = match bytes_of(alloc, shelf, file, b"starts") {
        Ok(bytes) => bytes,
        Err(stop) => return Err(stop),
    };
    match given_of(alloc, &bytes, p) {
        Ok(given) => Ok(given),
        Err(stop) => Err(stop),
    }
}
