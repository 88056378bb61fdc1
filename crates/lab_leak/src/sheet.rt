//! A text in memory to which lines are written.

ghost use Rattle.std.specs.Prelude.{◌≡◌, ◌≤◌, ◌<◌, ◌++◌, length, Some, None, OnOk, OnErr, IfOk};
ghost use Rattle.std.specs.Io.KnownBytes.{WriteAppends};
ghost use Rattle.tim_base.specs.Faults.{Rose};

use run_watch::{RunNumber, Watch};
use tim_base::sink::{Sink, SinkFault};

/// A text that grows by what is written to it, and how many writes wanted memory. It takes each piece whole, or nothing
/// of it.
#[derive(Drop)]
pub(crate) struct Sheet {
    pub text: Vec<u8>,
    pub faults: u64,
}

impl Watch for Sheet {
    fn tell(&self, _number: RunNumber, _clock: u64, _limit: u64) {}

    fn clear(&self) {}
}

impl Sink for Sheet {
    ghost use Rattle.std.specs.Prelude.{Some, None};

    ghost taken = { λ s. Some s.text.items };

    ghost faults = { λ s. s.faults };

    ghost log = { λ _. None };

    fn write(&mut self, piece: &[u8]) -> Result<usize, SinkFault>
        ensures bound { IfOk result (λ n. n ≤ length piece.now) }
        ensures some { IfOk result (λ n. 0 < length piece.now → 0 < n) }
        ensures appended { WriteAppends (Some self.old.text.items) (Some self.new.text.items) result piece.now }
        ensures later { self.old.faults ≤ self.new.faults }
        ensures fault { OnErr result (Rose self.old.faults self.new.faults) }
    {
        match self.text.extend_from_slice(piece) {
            Ok(()) => Ok(piece.len()),
            Err(_) => {
                self.faults = self.faults.saturating_add(1);
                Err(SinkFault)
            }
        }
    }
}
