//! From a certificate's file to the labelling that it holds.

ghost use Rattle.std.specs.Prelude.{◌≤◌, ◌∷◌, [], ℕ, List, Option, length, IfOk, IfErr};
ghost use Rattle.tim_base.specs.Kept.{KeepsFiles, NoCountFalls};
ghost use Rattle.tim_base.specs.Faults.{Rose};
ghost use Rattle.tim_base.specs.Told.{limit, IsTold};
ghost use Rattle.mit_syntax.specs.Program.{Syntax};
ghost use Rattle.type_cert.specs.Fault.{IsCertFault};
ghost use Rattle.tool_texts.specs.Ends.{IsStop};
ghost use Rattle.tool_stages.specs.Fetches.{Fetches};
ghost use Rattle.tool_stages.specs.Stages.{Rechecks, CertificateStops};

use crate::file::bytes_of;
use mit_syntax::program::Program;
use std::alloc::Global;
use tim_base::shelf::Shelf;
use timing_types::typed::Typed;
use tool_texts::lines;
use tool_texts::status::Status;
use tool_texts::stop::{Stop, no_memory};
use type_cert::fault::CertFault;
use type_cert::laws::held_labelling_types;
use type_cert::recheck::recheck;

// The stop for bytes that are no certificate.
fn certificate_stop(fault: CertFault) -> Stop
    ensures { (content : Option (Option (List ℕ))) (bytes : List ℕ) (p : Syntax) → IsTold content bytes → length bytes ≤ limit → IsCertFault p bytes fault
        → IsStop (CertificateStops ⊥ content p) result }
{
    match fault {
        CertFault::Line(number) => Stop::With {
            status: Status::Rejected,
            line: lines::rejected(number),
        },
        CertFault::Memory => no_memory(),
    }
}

/// A program with the labelling that bytes hold as its certificate, which types it.
///
/// # Errors
/// Stops with `Rejected` or `Memory`.
pub fn rechecked(alloc: Global, p: Program, bytes: &[u8]) -> Result<Typed, Stop>
    requires { length bytes.now ≤ limit }
    ensures ok { IfOk result (λ q. (content : Option (Option (List ℕ))) → IsTold content bytes.now → Rechecks content p q.labelled) }
    ensures stop { IfErr result (λ e. (content : Option (Option (List ℕ))) → IsTold content bytes.now → IsStop (CertificateStops ⊥ content p) e) }
{
    p.laws();
    held_labelling_types();
    match recheck(alloc, p, bytes) {
        Ok(typed) => Ok(typed),
        Err((_, fault)) => Err(certificate_stop(fault)),
    }
}

/// A program with the labelling that the certificate in a file holds, which types it.
///
/// # Errors
/// Stops with `ReadFault`, `TooLong`, `Rejected` or `Memory`.
#[inline(never)]
pub fn rechecked_by<S: Shelf>(
    alloc: Global,
    shelf: &mut S,
    file: &str,
    p: Program,
) -> Result<Typed, Stop>
    ensures same { KeepsFiles (S.content shelf.old) (S.content shelf.new) }
    ensures later { NoCountFalls (S.faults shelf.old) (S.faults shelf.new) }
    ensures log { Fetches (file.now ∷ []) (S.log shelf.old) (S.log shelf.new) result }
    ensures ok { IfOk result (λ q. Rechecks (S.content shelf.old file.now) p q.labelled) }
    ensures stop { IfErr result (IsStop (CertificateStops
        (Rose (S.faults shelf.old file.now) (S.faults shelf.new file.now)) (S.content shelf.old file.now) p)) }
{
    let bytes = match bytes_of(alloc, shelf, file, b"certificate") {
        Ok(bytes) => bytes,
        Err(stop) => return Err(stop),
    };
    match rechecked(alloc, p, &bytes) {
        Ok(typed) => Ok(typed),
        Err(stop) => Err(stop),
    }
}
