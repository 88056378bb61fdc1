//! A call of the tool over files and a writer: from the words to the exit number and the bytes that the writer has taken.
#![tactic(auto)]

ghost use Rattle.std.specs.Prelude.{◌≡◌, ◌⊎◌, List, map, string_bytes};
ghost use Rattle.std.specs.Io.KnownBytes.{Keeps};
ghost use Rattle.tim_base.specs.Faults.{Rose};
ghost use Rattle.mit_call.specs.Called.{HasCalled, HasEnded};

use mit_tool::mitigate_main;
use run_watch::Watch;
use std::alloc::Global;
use std::io::Write;
use tim_base::shelf::Shelf;
use tim_base::sink::{OutSink, Sink};
use tool_texts::status::Status;

#[cfg(test)]
mod tests;

/// Does what the words of a command line ask for, over files and a sink, and gives the status and the sink. After a fault of
/// the sink nothing more is handed to it.
pub fn obey<S: Shelf, W: Sink>(
    alloc: Global,
    words: &[String],
    shelf: &mut S,
    out: W,
) -> (Status, W)
    ensures { HasEnded (S.content shelf.old) (λ name. Rose (S.faults shelf.old name) (S.faults shelf.new name))
        (Rose (W.faults out) (W.faults result.1)) (W.taken out) (W.taken result.1) (map string_bytes words.now) result.0 }
{
    let mut out = out;
    let status = mitigate_main(alloc, words, shelf, &mut out);
    (status, out)
}

// Flushes the writer, but for one that has failed.
fn end<O: Write, P: Watch + Drop>(out: OutSink<O, P>, status: Status) -> (Status, O)
    ensures same { (result.0 ≡ status) ⊎ (result.0 ≡ Status.WriteFault) }
    ensures kept { Keeps out.contents (O.contents result.1) }
{
    match status {
        Status::WriteFault => (status, out.into_writer()),
        _ => match out.finish() {
            (out, Ok(())) => (status, out),
            (out, Err(_)) => (Status::WriteFault, out),
        },
    }
}

/// Does what the words of a command line ask for, over files and a writer, and gives the exit number and the writer. The
/// text goes to the writer piece by piece, and it is flushed at the end. After a fault of the writer nothing more is handed to
/// it. A watch is told how far runs have come, and takes its line away before each piece.
pub fn call<S: Shelf, O: Write, P: Watch + Drop>(
    alloc: Global,
    words: &[String],
    shelf: &mut S,
    out: O,
    watch: P,
) -> (u8, O)
    ensures { HasCalled (S.content shelf.old) (λ name. Rose (S.faults shelf.old name) (S.faults shelf.new name))
        (O.contents out) (O.contents result.1) (map string_bytes words.now) result.0 }
{
    let (status, out) = obey(alloc, words, shelf, OutSink::new(out, watch));
    let (status, out) = end(out, status);
    (status.number(), out)
}
