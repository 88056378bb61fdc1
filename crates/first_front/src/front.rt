//! The choices that no other one betters.

ghost use Rattle.std.specs.Prelude.{◌≡◌, ◌<◌, ◌^◌, ◌&&◌, ◌||◌, not, ℕ, leb, ltb, IfOk, IfErr};
ghost use Rattle.std.specs.List.{sum_by, list_any, filter};
ghost use Rattle.first_front.specs.declared.fault.WalkFault.TheVariants as fault;
ghost use Rattle.first_front.specs.Intervals.{IsTooLong};
ghost use Rattle.first_front.specs.Front.{IsFront};
ghost use Rattle.first_front.specs.Chosen.{beats, is_beaten, is_chosen, chosen};

use crate::class::{Class, Varied};
use crate::fault::WalkFault;
use crate::interval::Interval;
use crate::walk::walk;
use std::alloc::{AllocError, Global};

impl Interval {
    // Whether all runs end by the limit with this one, and it tells at most as much as the other one and costs at most as
    // much, and not both the same, unless it is less.
    fn beats(&self, other: &Interval, limit: u64) -> bool
        ensures { result ≡ beats limit self.now other.now }
    {
        self.latest <= limit
            && self.things <= other.things
            && self.cost <= other.cost
            && (self.things < other.things || self.cost < other.cost || self.first < other.first)
    }

    // Whether one of these beats it.
    fn is_beaten(&self, others: &[Interval], limit: u64) -> bool
        ensures { result ≡ is_beaten limit others.now self.now }
    {
        others.iter().any(|other| other.beats(self, limit))
    }

    // Whether all runs end by the limit with it, and none of these beats it.
    fn is_chosen(&self, others: &[Interval], limit: u64) -> bool
        ensures { result ≡ is_chosen limit others.now self.now }
    {
        self.latest <= limit && !self.is_beaten(others, limit)
    }
}

// Those with which all runs end by the limit, and which no other one beats.
fn chosen(alloc: Global, intervals: &[Interval], limit: u64) -> Result<Vec<Interval>, AllocError>
    ensures { IfOk result (λ is. is.items ≡ chosen limit intervals.now) }
{
    intervals
        .iter()
        .filter(|interval| interval.is_chosen(intervals, limit))
        .copied()
        .collect(alloc)
}

/// The first predictions from 1 to 2^40 that are best, each with the interval that it begins: all runs end by the limit
/// with it, and no other one with which they do tells at most as much and costs at most as much, unless it tells and costs
/// the same and is greater.
///
/// # Errors
/// `TooLong` where with some first prediction from 1 to 2^40 a run ends after cycle 2^64 - 1; `Memory` where memory is wanting.
pub fn front(
    alloc: Global,
    classes: &[Class],
    varied: &Varied<'_>,
    limit: u64,
) -> Result<Vec<Interval>, WalkFault>
    requires { sum_by (λ c. c.starts) classes.now < 2 ^ 64 }
    ensures front { IfOk result (λ is. IsFront varied.now classes.now limit is.items) }
    ensures fault { IfErr result (λ e. e ≡ fault.TooLong → IsTooLong varied.now classes.now) }
{
    let intervals = walk(alloc, classes, varied)?;
    let front = chosen(alloc, &intervals, limit)?;
    Ok(front)
}
