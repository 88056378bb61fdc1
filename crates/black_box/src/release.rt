//! The releases of one run.

ghost use Rattle.std.specs.Prelude.{◌≡◌, IfOk, length, drop};
ghost use Rattle.run_limits.specs.Cycles.{IsCycles};
ghost use Rattle.black_box.specs.Schedule.{is_due};
ghost use Rattle.black_box.specs.Outcomes.{seen, IsOutcome, outcome};

use std::alloc::Global;
use text_base::pos::Memory;

/// When the events of a run are released.
#[derive(Debug, PartialEq, Eq, Drop)]
pub struct Releases {
    /// The cycles at which the events 1, 2, .. are released, as far as they are within the limit.
    pub at: Vec<u64>,
    /// How many epochs begin at or before the limit.
    pub epochs: u32,
}

// Whether there is an event after those that are released, and it is ready at the slot.
fn is_due(ready: &[u64], released: usize, slot: u64) -> bool
    ensures { result ≡ is_due slot (drop released ready.now) }
{
    match ready.get(released) {
        Some(cycle) => *cycle <= slot,
        None => false,
    }
}

/// The releases of events that are ready at the given cycles, up to a limit in cycles. The first epoch begins
/// at cycle 0, and its slots lie `first` cycles apart. At each slot the next event is released, if it is
/// ready; if not, the next epoch begins there, and its slots lie twice as far apart.
///
/// `first` and `limit` are from 1 to 2^40.
///
/// # Errors
/// Only want of memory.
pub fn release(alloc: Global, ready: &[u64], first: u64, limit: u64) -> Result<Releases, Memory>
    requires first { IsCycles first }
    requires limit { IsCycles limit }
    ensures schedule { IfOk result (λ r. IsOutcome first limit ready.now (seen r)) }

    // The same, computed.
    ensures computed { IfOk result (λ r. seen r ≡ outcome first limit ready.now) }
{
    let mut at = Vec::new(alloc);
    let mut epochs: u32 = 1;
    let mut length = first;
    let mut slot = first;
    while slot <= limit {
        if is_due(ready, at.len(), slot) {
            at.push(slot)?;
        } else {
            epochs += 1;
            length *= 2;
        }
        slot += length;
    }
    Ok(Releases { at, epochs })
}
