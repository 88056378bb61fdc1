//! Whether some intervals have no number in common.

ghost use Rattle.std.specs.Prelude.{◌≡◌, ◌+◌, ◌<◌, ◌≤ℤ◌, ℕ, IfOk, length, slice_index_or};
ghost use Rattle.space_starts.specs.declared.space.Interval.{Interval};
ghost use Rattle.space_starts.specs.Space.{meet, apart};

use crate::space::Interval;
use std::alloc::{AllocError, Global};

// Whether two intervals have a number in common.
fn meet(one: Interval, other: Interval) -> bool
    ensures { result ≡ meet one other }
{
    one.reaches(other.first) && other.reaches(one.first)
}

// The same of intervals of which none begins before the one before it.
fn neighbours_apart(sorted: &[Interval]) -> bool
    requires { (k : ℕ) (d : Interval) → k + 1 < length sorted.now
        → (slice_index_or sorted.now k d).first ≤ℤ (slice_index_or sorted.now (k + 1) d).first }
    ensures { result ≡ apart sorted.now }
{
    for k in 1..sorted.len() {
        if meet(sorted[k - 1], sorted[k]) {
            return false;
        }
    }
    true
}

/// Whether no two of some intervals have a number in common. Takes n log n steps for n intervals.
///
/// # Errors
/// `AllocError` where memory runs out.
pub fn are_apart(alloc: Global, intervals: &[Interval]) -> Result<bool, AllocError>
    ensures { IfOk result (λ b. b ≡ apart intervals.now) }
{
    if intervals.len() < 2 {
        return Ok(true);
    }
    let mut sorted = Vec::from_slice(alloc, intervals)?;
    sorted.sort_unstable_by_key(|interval| interval.first);
    Ok(neighbours_apart(&sorted))
}
