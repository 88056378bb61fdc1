//! All intervals, one after another.

ghost use Rattle.std.specs.Prelude.{◌≡◌, ◌<◌, ◌+◌, ◌^◌, IfOk, IfErr};
ghost use Rattle.std.specs.List.{sum_by};
ghost use Rattle.first_front.specs.declared.fault.WalkFault.TheVariants as fault;
ghost use Rattle.first_front.specs.Intervals.{Covers, IsTooLong};

use crate::class::{Class, Varied};
use crate::fault::WalkFault;
use crate::interval::{Interval, MAX_FIRST};
use std::alloc::Global;

/// All first predictions from 1 to 2^40 by intervals, one after another, on each of which no miss count of any run changes.
///
/// # Errors
/// `TooLong` where with some first prediction from 1 to 2^40 a run ends after cycle 2^64 - 1; `Memory` where memory is wanting.
pub fn walk(
    alloc: Global,
    classes: &[Class],
    varied: &Varied<'_>,
) -> Result<Vec<Interval>, WalkFault>
    requires { sum_by (λ c. c.starts) classes.now < 2 ^ 64 }
    ensures covers { IfOk result (λ is. Covers varied.now classes.now 1 is.items (2 ^ 40 + 1)) }
    ensures fault { IfErr result (λ e. e ≡ fault.TooLong → IsTooLong varied.now classes.now) }
{
    let mut intervals = Vec::new(alloc);
    let mut first = 1;
    while first <= MAX_FIRST {
        let interval = Interval::from(alloc, classes, varied, first)?;
        intervals.push(interval)?;
        first = interval.last + 1;
    }
    Ok(intervals)
}
