ghost use Rattle.std.specs.Prelude.{◌≡◌, ℕ, ◌+◌, ◌<◌, ◌≤◌, List, [], ◌∷◌, length, take, IfOk, OnOk, OnErr, Option};
ghost use Rattle.std.specs.Io.KnownBytes.{Appends, WriteAppends};
ghost use Rattle.tim_base.specs.Faults.{Rose};
ghost use Rattle.tim_base.specs.Sinks.{AppendsPrefix};
ghost use Rattle.tim_base.specs.Logs.{Offered, offered, Grows, HasSent, HasBroken};

use super::SinkFault;
use run_watch::Watch;

/// A place where bytes go. Who looks at it is told how far runs have come.
pub trait Sink: Watch {
    /// The bytes that it has taken, where it tells them.
    ghost taken: { Self → Option (List ℕ) };

    /// The count of its faults.
    ghost faults: { Self → ℕ };

    /// The writes so far, in order, where the sink tells them.
    ghost log: { Self → Option (List Offered) };

    /// Takes the first bytes of a piece, and at least one of a piece that is not empty, and answers how
    /// many it took. After a fault it has taken nothing, and its count rose.
    fn write(&mut self, piece: &[u8]) -> Result<usize, SinkFault>
        ensures bound { IfOk result (λ n. n ≤ length piece.now) }
        ensures some { IfOk result (λ n. 0 < length piece.now → 0 < n) }
        ensures appended { WriteAppends (taken self.old) (taken self.new) result piece.now }
        ensures later { faults self.old ≤ faults self.new }
        ensures fault { OnErr result (Rose (faults self.old) (faults self.new)) }

        // The log grows by this write.
        ensures log { Grows (log self.old) (log self.new) (offered piece.now result ∷ []) };
}

/// Writes all bytes, in as many pieces as the sink wants, and tells how many were taken. It takes no memory. After a
/// fault, whose count rose, a prefix of the bytes has been taken.
pub fn send<W: Sink>(out: &mut W, bytes: &[u8]) -> (usize, Result<(), SinkFault>)
    ensures bound { result.0 ≤ length bytes.now }
    ensures all { OnOk result.1 (result.0 ≡ length bytes.now) }
    ensures taken { Appends (W.taken out.old) (W.taken out.new) (take result.0 bytes.now) }
    ensures later { W.faults out.old ≤ W.faults out.new }
    ensures fault { OnErr result.1 (Rose (W.faults out.old) (W.faults out.new)) }

    // The bytes are one piece; after a write that failed there is none.
    ensures sent { OnOk result.1 (HasSent (W.log out.old) (W.log out.new) (bytes.now ∷ [])) }
    ensures broken { OnErr result.1 (HasBroken (W.log out.old) (W.log out.new) (bytes.now ∷ [])) }
{
    let mut done = 0;
    while done < bytes.len() {
        match out.write(&bytes[done..]) {
            Ok(count) => done += count,
            Err(fault) => return (done, Err(fault)),
        }
    }
    (done, Ok(()))
}

/// Writes all bytes, in as many pieces as the sink wants. It takes no memory. After a fault, whose count
/// rose, a prefix of the bytes has been taken.
pub fn write_all<W: Sink>(out: &mut W, bytes: &[u8]) -> Result<(), SinkFault>
    ensures ok { OnOk result (Appends (W.taken out.old) (W.taken out.new) bytes.now) }
    ensures prefix { OnErr result (AppendsPrefix (W.taken out.old) (W.taken out.new) bytes.now) }
    ensures later { W.faults out.old ≤ W.faults out.new }
    ensures fault { OnErr result (Rose (W.faults out.old) (W.faults out.new)) }

    // The bytes are one piece; after a write that failed there is none.
    ensures sent { OnOk result (HasSent (W.log out.old) (W.log out.new) (bytes.now ∷ [])) }
    ensures broken { OnErr result (HasBroken (W.log out.old) (W.log out.new) (bytes.now ∷ [])) }
{
    send(out, bytes).1
}
