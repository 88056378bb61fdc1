//! The command `why` with a start file.

ghost use Rattle.std.specs.Prelude.{◌≡◌, ◌≢◌, ◌≤◌, ◌⊎◌, ◌∷◌, ◌++◌, [], ℕ, List, Option, Err, IfOk, IfErr, codes, length};
ghost use Rattle.tim_base.specs.Kept.{KeepsFiles, NoCountFalls};
ghost use Rattle.tim_base.specs.Faults.{Rose};
ghost use Rattle.tim_base.specs.Told.{limit, IsTold};
ghost use Rattle.mit_syntax.specs.Plan.{count, mitigates};
ghost use Rattle.mit_syntax.specs.Program.{plan_of};
ghost use Rattle.start_file.specs.Starts.{Gives};
ghost use Rattle.tool_texts.specs.Ends.{EndsBy, IsStop, Nothing};
ghost use Rattle.tool_texts.specs.Texts.{accepted_line, number_line, starts};
ghost use Rattle.tool_stages.specs.Fetches.{Fetches, FileStops, HasFetched};
ghost use Rattle.lab_why.specs.Starts.{HasStartsTold, IsTaken, IsTakenRead, IsStartsAnswer};

use crate::explained::{Explained, explain};
use crate::faulty::joined;
use mit_syntax::program::Program;
use start_faults::faults::fault_lines;
use start_file::fault::StartFault;
use start_file::starts::read_starts;
use std::alloc::Global;
use text_base::pos::Memory;
use tim_base::shelf::Shelf;
use tim_base::sink::Sink;
use tool_stages::file::bytes_of;
use tool_texts::finish::{finish, stop};
use tool_texts::lines;
use tool_texts::status::Status;
use tool_texts::stop::{Stop, no_memory};

/// The status and the text of what is told.
#[derive(Drop)]
pub struct Told {
    pub status: Status,
    pub text: Vec<u8>,
}

/// What is told of bytes that are no starts of a program.
///
/// # Errors
/// `Memory` is want of memory.
pub fn faulty(
    alloc: Global,
    bytes: &[u8],
    program: &Program,
    fault: StartFault,
) -> Result<Told, Memory>
    requires short { length bytes.now ≤ limit }
    requires fault { Gives program.now bytes.now (Err fault) }
    requires none { fault ≢ StartFault.Memory }
    ensures status { IfOk result (λ x. x.status ≡ Status.Starts) }
    ensures told { IfOk result (λ x. (content : Option (Option (List ℕ))) → IsTold content bytes.now → HasStartsTold content program.now x.text.items) }
{
    let more = fault_lines(alloc, bytes, program, fault)?;
    let line = lines::start_fault(fault);
    Ok(Told {
        status: Status::Starts,
        text: joined(alloc, line.bytes(), more.as_slice())?,
    })
}

// What is told of a program that is accepted, and of so many starts.
fn taken(alloc: Global, program: &Program, starts: usize) -> Result<Told, Memory>
    ensures status { IfOk result (λ x. x.status ≡ Status.Done) }
    ensures text { IfOk result (λ x. x.text.items ≡ accepted_line (count (plan_of program.now)) (mitigates (plan_of program.now))
        ++ number_line (codes "starts ") starts) }
{
    let line = lines::accepted(program.commands(), program.mitigates());
    let runs = lines::number(b"starts ", starts as u64);
    Ok(Told {
        status: Status::Done,
        text: joined(alloc, line.bytes(), runs.bytes())?,
    })
}

// What is told of the bytes of a start file, for a program that is accepted.
fn bytes_told(alloc: Global, bytes: &[u8], program: &Program) -> Result<Told, Memory>
    requires { length bytes.now ≤ limit }
    ensures known { IfOk result (λ x. (x.status ≡ Status.Done) ⊎ (x.status ≡ Status.Starts)) }
    ensures told { IfOk result (λ x. (content : Option (Option (List ℕ))) → IsTold content bytes.now
        → IsTakenRead content program.now x.status x.text.items) }
{
    match read_starts(alloc, bytes, program) {
        Ok(starts) => taken(alloc, program, starts.len()),
        Err(fault) => match fault {
            StartFault::Memory => Err(Memory),
            _ => faulty(alloc, bytes, program, fault),
        },
    }
}

// What is told of a start file, for a program that is accepted.
fn starts_told<S: Shelf>(
    alloc: Global,
    shelf: &mut S,
    file: &str,
    program: &Program,
) -> Result<Told, Stop>
    ensures same { KeepsFiles (S.content shelf.old) (S.content shelf.new) }
    ensures later { NoCountFalls (S.faults shelf.old) (S.faults shelf.new) }
    ensures log { Fetches (file.now ∷ []) (S.log shelf.old) (S.log shelf.new) result }
    ensures told { IfOk result (λ x. IsTaken (Rose (S.faults shelf.old file.now) (S.faults shelf.new file.now)) (S.content shelf.old file.now) program.now
        x.status x.text.items) }
    ensures known { IfOk result (λ x. (x.status ≡ Status.Done) ⊎ (x.status ≡ Status.Starts)) }
    ensures stop { IfErr result (IsStop (FileStops (Rose (S.faults shelf.old file.now) (S.faults shelf.new file.now)) (S.content shelf.old file.now)
        starts)) }
{
    let bytes = match bytes_of(alloc, shelf, file, b"starts") {
        Ok(bytes) => bytes,
        Err(stop) => return Err(stop),
    };
    match bytes_told(alloc, bytes.as_slice(), program) {
        Ok(told) => Ok(told),
        Err(Memory) => Err(no_memory()),
    }
}

// Tells of a start file, for a program that is accepted.
fn tell_starts<S: Shelf, W: Sink>(
    alloc: Global,
    shelf: &mut S,
    out: &mut W,
    program: &Program,
    starts: &str,
) -> Status
    ensures same { KeepsFiles (S.content shelf.old) (S.content shelf.new) }
    ensures later { NoCountFalls (S.faults shelf.old) (S.faults shelf.new) }
    ensures later_out { W.faults out.old ≤ W.faults out.new }
    ensures answered { EndsBy (W.taken out.old) (W.taken out.new) Nothing
        (IsTaken (Rose (S.faults shelf.old starts.now) (S.faults shelf.new starts.now)) (S.content shelf.old starts.now) program.now) result }
    ensures write { result ≡ Status.WriteFault → Rose (W.faults out.old) (W.faults out.new) }
    ensures fetched { HasFetched (starts.now ∷ []) result (S.log shelf.old) (S.log shelf.new) }
{
    match starts_told(alloc, shelf, starts, program) {
        Ok(told) => finish(out, told.text.as_slice(), told.status),
        Err(e) => stop(out, e),
    }
}

/// Tells whether the program of a file is accepted, as `why` does, and if it is, whether a start file holds starts for it: how many, or
/// what is wrong with the file: the tool's own line, the place by its keys, what stands there, and what has to stand there.
pub fn why_starts<S: Shelf, W: Sink>(
    alloc: Global,
    shelf: &mut S,
    out: &mut W,
    file: &str,
    starts: &str,
) -> Status
    ensures same { KeepsFiles (S.content shelf.old) (S.content shelf.new) }
    ensures later { NoCountFalls (S.faults shelf.old) (S.faults shelf.new) }
    ensures later_out { W.faults out.old ≤ W.faults out.new }
    ensures answered { EndsBy (W.taken out.old) (W.taken out.new) Nothing
        (IsStartsAnswer (λ name. Rose (S.faults shelf.old name) (S.faults shelf.new name)) (S.content shelf.old) file.now starts.now) result }
    ensures write { result ≡ Status.WriteFault → Rose (W.faults out.old) (W.faults out.new) }
    ensures fetched { HasFetched (file.now ∷ starts.now ∷ []) result (S.log shelf.old) (S.log shelf.new) }
{
    match explain(alloc, shelf, file) {
        Ok(Explained::Accepted(typed)) => tell_starts(
            alloc,
            shelf,
            out,
            typed.labelled().program(),
            starts,
        ),
        Ok(Explained::Refused(lines)) => finish(out, lines.as_slice(), Status::Refused),
        Ok(Explained::Faulty(lines)) => finish(out, lines.as_slice(), Status::Syntax),
        Err(e) => stop(out, e),
    }
}
