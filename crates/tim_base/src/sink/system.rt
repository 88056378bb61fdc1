ghost use Rattle.std.specs.Prelude.{◌≡◌, ◌<◌, ◌≤◌, length, IfOk, OnOk, OnErr, None};
ghost use Rattle.std.specs.Io.KnownBytes.{Keeps, WriteAppends};
ghost use Rattle.tim_base.specs.Faults.{Rose, raised};

use super::{Sink, SinkFault};
use crate::count::{MAX_INTERRUPTED, raise};
use run_watch::{RunNumber, Watch};
use std::io::{ErrorKind, Write};
use std::marker::Model;

#[cfg(test)]
mod tests;

/// A writer of the system, with a count of its faults, and a watch whose line is taken away before each write. Contracts see
/// what the writer has taken, where it tells that, and the count.
#[derive(Drop)]
pub struct OutSink<O: Write, P: Watch> {
    out: O,
    faults: u64,
    watch: P,
}

impl<O: Write, P: Watch> Model for OutSink<O, P> {
    ghost use Rattle.tim_base.specs.Sinks.{OutTold};

    ghost Value = { OutTold };

    ghost view = { λ s. record { contents = O.contents s.out; faults = s.faults } };
}

impl<O: Write, P: Watch + Drop> OutSink<O, P> {
    /// A writer, with no faults so far, and a watch.
    pub fn new(out: O, watch: P) -> OutSink<O, P>
        ensures { result ≡ record { contents = O.contents out; faults = 0 } }
    {
        OutSink {
            out,
            faults: 0,
            watch,
        }
    }

    /// The writer, as it is.
    pub fn into_writer(self) -> O
        ensures { O.contents result ≡ self.contents }
    {
        self.out
    }

    /// Flushes the writer, and gives it back.
    pub fn finish(self) -> (O, Result<(), SinkFault>)
        ensures { Keeps self.contents (O.contents result.0) }
    {
        let mut out = self.out;
        match out.flush() {
            Ok(()) => (out, Ok(())),
            Err(_) => (out, Err(SinkFault)),
        }
    }
}

impl<O: Write, P: Watch> Watch for OutSink<O, P> {
    fn tell(&self, number: RunNumber, clock: u64, limit: u64) {
        self.watch.tell(number, clock, limit);
    }

    fn clear(&self) {
        self.watch.clear();
    }
}

impl<O: Write, P: Watch> Sink for OutSink<O, P> {
    ghost taken = { λ s. s.contents };

    ghost faults = { λ s. s.faults };

    ghost log = { λ _. None };

    fn write(&mut self, piece: &[u8]) -> Result<usize, SinkFault>
        ensures bound { IfOk result (λ n. n ≤ length piece.now) }
        ensures some { IfOk result (λ n. 0 < length piece.now → 0 < n) }
        ensures appended { WriteAppends self.old.contents self.new.contents result piece.now }
        ensures later { self.old.faults ≤ self.new.faults }
        ensures fault { OnErr result (Rose self.old.faults self.new.faults) }

        // The count rises at each fault and stays at each write that takes bytes.
        ensures kept { OnOk result (self.new.faults ≡ self.old.faults) }
        ensures rose { OnErr result (self.new.faults ≡ raised self.old.faults) }
    {
        self.watch.clear();
        match write_on(&mut self.out, piece) {
            Ok(count) => Ok(count),
            Err(fault) => {
                self.faults = raise(self.faults);
                Err(fault)
            }
        }
    }
}

// One write, taken up again where a signal interrupts it.
fn write_on<O: Write>(out: &mut O, piece: &[u8]) -> Result<usize, SinkFault>
    ensures bound { IfOk result (λ n. n ≤ length piece.now) }
    ensures some { IfOk result (λ n. 0 < length piece.now → 0 < n) }
    ensures appended { WriteAppends (O.contents out.old) (O.contents out.new) result piece.now }
{
    for _ in 0..MAX_INTERRUPTED {
        match out.write(piece) {
            Ok(count) if count > 0 || piece.is_empty() => return Ok(count),
            Ok(_) => return Err(SinkFault),
            Err(fault) => {
                if fault.kind() != ErrorKind::Interrupted {
                    return Err(SinkFault);
                }
            }
        }
    }
    Err(SinkFault)
}
