ghost use Rattle.std.specs.Prelude.{◌≡◌, ◌⊎◌, ◌<◌, ◌≤◌, ◌++◌, ◌∷◌, [], length, map, true, false, Some, OnOk, OnErr, IfOk};
ghost use Rattle.std.specs.Io.KnownBytes.{WriteAppends};
ghost use Rattle.tim_base.specs.Faults.{Rose, raised};
ghost use Rattle.tim_base.specs.Logs.{offered, Grows};
ghost use Rattle.tim_base.specs.Recorded.{offer_of, tried, taken_by, told_if};

use super::{Sink, SinkFault};
use crate::count::raise;
use run_watch::{RunNumber, Watch};
use std::alloc::Global;
use std::marker::Model;
use text_base::pos::Memory;

/// A write that a sink was offered.
#[derive(Drop)]
pub struct Offer {
    /// The bytes.
    pub bytes: Vec<u8>,
    /// Whether they were taken, or the write failed.
    pub taken: bool,
}

/// A sink in memory that records each write. It takes the whole piece of each of its first writes, up to a number, and all
/// later ones fail, and so does a write that there is no memory to record. Its log is told as long as none is left out.
#[derive(Drop)]
pub struct RecordedSink {
    alloc: Global,
    writes: Vec<Offer>,
    most: usize,
    whole: bool,
    faults: u64,
}

impl Model for RecordedSink {
    ghost use Rattle.std.specs.Prelude.{map, All};
    ghost use Rattle.tim_base.specs.Recorded.{SinkRecord, offer_of, TakesAll};

    ghost Value = { SinkRecord };

    ghost view = { λ s. record { writes = map offer_of s.writes.items; most = s.most; whole = s.whole; faults = s.faults } };

    ghost invariant = { λ s. All TakesAll (map offer_of s.writes.items) };
}

impl RecordedSink {
    /// A sink with no writes so far, of which the first `most` are taken, and no faults.
    pub fn new(alloc: Global, most: usize) -> RecordedSink
        ensures { result ≡ record { writes = []; most = most; whole = true; faults = 0 } }
    {
        RecordedSink {
            alloc,
            writes: Vec::new(alloc),
            most,
            whole: true,
            faults: 0,
        }
    }

    /// The writes that are recorded, in order.
    pub fn writes(&self) -> &[Offer]
        ensures { map offer_of result.now ≡ self.now.writes }
    {
        self.writes.as_slice()
    }

    /// Whether no write is left out.
    pub fn is_whole(&self) -> bool
        ensures { result ≡ self.now.whole }
    {
        self.whole
    }
}

impl Watch for RecordedSink {
    fn tell(&self, _number: RunNumber, _clock: u64, _limit: u64) {}

    fn clear(&self) {}
}

impl Sink for RecordedSink {
    ghost taken = { λ s. Some (taken_by s.writes) };

    ghost faults = { λ s. s.faults };

    ghost log = { λ s. told_if s.whole s.writes };

    fn write(&mut self, piece: &[u8]) -> Result<usize, SinkFault>
        ensures bound { IfOk result (λ n. n ≤ length piece.now) }
        ensures some { IfOk result (λ n. 0 < length piece.now → 0 < n) }
        ensures appended { WriteAppends (Some (taken_by self.old.writes)) (Some (taken_by self.new.writes)) result piece.now }
        ensures later { self.old.faults ≤ self.new.faults }
        ensures fault { OnErr result (Rose self.old.faults self.new.faults) }
        ensures log { Grows (told_if self.old.whole self.old.writes) (told_if self.new.whole self.new.writes) (offered piece.now result ∷ []) }

        // A piece is taken whole, and what is not taken came too late or could not be recorded.
        ensures ok { OnOk result (self.new ≡ record self.old { writes = self.old.writes ++ tried piece.now true ∷ [] }) }
        ensures err { OnErr result (((self.old.most ≤ length self.old.writes)
            × (self.new ≡ record self.old { writes = self.old.writes ++ tried piece.now false ∷ []; faults = raised self.old.faults }))
            ⊎ (self.new ≡ record self.old { whole = false; faults = raised self.old.faults })) }
    {
        let taken = self.writes.len() < self.most;
        let kept = record(&mut self.writes, self.alloc, piece, taken);
        if kept.is_err() {
            self.whole = false;
        }
        if kept.is_ok() && taken {
            return Ok(piece.len());
        }
        self.faults = raise(self.faults);
        Err(SinkFault)
    }
}

// Appends a write.
fn record(writes: &mut Vec<Offer>, alloc: Global, piece: &[u8], taken: bool) -> Result<(), Memory>
    ensures ok { OnOk result (map offer_of writes.new.items ≡ map offer_of writes.old.items ++ tried piece.now taken ∷ []) }
    ensures err { OnErr result (map offer_of writes.new.items ≡ map offer_of writes.old.items) }
{
    let bytes = Vec::from_slice(alloc, piece)?;
    writes.push(Offer { bytes, taken })?;
    Ok(())
}
