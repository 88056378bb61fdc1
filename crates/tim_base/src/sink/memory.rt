ghost use Rattle.std.specs.Prelude.{◌≡◌, ◌<◌, ◌≤◌, ◌++◌, ◌∷◌, [], length, Some, None, is_err, OnOk, OnErr, IfOk};
ghost use Rattle.std.specs.Io.KnownBytes.{WriteAppends};
ghost use Rattle.tim_base.specs.Faults.{Rose, raised};
ghost use Rattle.tim_base.specs.MemorySinks.{empty_sink, write_fails};

use super::{Sink, SinkFault};
use crate::count::raise;
use run_watch::{RunNumber, Watch};
use std::alloc::Global;
use std::marker::Model;
use text_base::pos::Memory;

/// Bytes in memory, up to a room. The writes whose numbers are listed fail, and so do those that do not
/// fit the room. All others take the whole piece.
#[derive(Drop)]
pub struct MemSink {
    bytes: Vec<u8>,
    room: usize,
    calls: u64,
    failing: Vec<u64>,
    faults: u64,
}

impl Model for MemSink {
    ghost use Rattle.std.specs.Prelude.{◌≤◌, vec_len, vec_capacity};
    ghost use Rattle.tim_base.specs.MemorySinks.{MemorySink};

    ghost Value = { MemorySink };

    ghost view = { λ s. record { bytes = s.bytes.items; room = s.room; calls = s.calls; failing = s.failing.items; faults = s.faults } };

    ghost invariant = { λ s. (s.room ≤ vec_capacity s.bytes) × (vec_len s.bytes ≤ s.room) };
}

impl MemSink {
    /// A sink with room 0, no calls so far, none that are to fail, and no faults.
    pub fn new(alloc: Global) -> MemSink
        ensures { result ≡ empty_sink 0 }
    {
        MemSink {
            bytes: Vec::new(alloc),
            room: 0,
            calls: 0,
            failing: Vec::new(alloc),
            faults: 0,
        }
    }

    /// The same with a room for so many bytes, whose memory is taken here.
    pub fn new_with_room(alloc: Global, room: usize) -> Result<MemSink, Memory>
        ensures { IfOk result (λ sink. sink ≡ empty_sink room) }
    {
        let bytes = Vec::with_capacity(alloc, room)?;
        let failing = Vec::new(alloc);
        Ok(MemSink {
            bytes,
            room,
            calls: 0,
            failing,
            faults: 0,
        })
    }

    /// Lists a write that is to fail, by its number from 1.
    pub fn fail_at(&mut self, call: u32) -> Result<(), Memory>
        ensures ok { OnOk result (self.new ≡ record self.old { failing = self.old.failing ++ call ∷ [] }) }
        ensures err { OnErr result (self.new ≡ self.old) }
    {
        self.failing.push(u64::from(call))?;
        Ok(())
    }

    /// The bytes that it has taken.
    pub fn bytes(&self) -> &[u8]
        ensures { result.now ≡ self.now.bytes }
    {
        self.bytes.as_slice()
    }
}

impl Watch for MemSink {
    fn tell(&self, _number: RunNumber, _clock: u64, _limit: u64) {}

    fn clear(&self) {}
}

impl Sink for MemSink {
    ghost taken = { λ s. Some s.bytes };

    ghost faults = { λ s. s.faults };

    ghost log = { λ _. None };

    fn write(&mut self, piece: &[u8]) -> Result<usize, SinkFault>
        ensures bound { IfOk result (λ n. n ≤ length piece.now) }
        ensures some { IfOk result (λ n. 0 < length piece.now → 0 < n) }
        ensures appended { WriteAppends (Some self.old.bytes) (Some self.new.bytes) result piece.now }
        ensures later { self.old.faults ≤ self.new.faults }
        ensures fault { OnErr result (Rose self.old.faults self.new.faults) }

        // It fails exactly where the call's number is listed or the piece does not fit.
        ensures exact { is_err result ≡ write_fails self.old piece.now }
        ensures whole { IfOk result (λ n. n ≡ length piece.now) }
        ensures ok { OnOk result (self.new ≡ record self.old { bytes = self.old.bytes ++ piece.now; calls = raised self.old.calls }) }
        ensures err { OnErr result (self.new ≡ record self.old { calls = raised self.old.calls; faults = raised self.old.faults }) }
    {
        self.calls = raise(self.calls);
        if self.failing.contains(&self.calls) || piece.len() > self.room - self.bytes.len() {
            self.faults = raise(self.faults);
            return Err(SinkFault);
        }
        match self.bytes.extend_from_slice(piece) {
            Ok(()) => Ok(piece.len()),
            Err(_) => unreachable!(),
        }
    }
}
