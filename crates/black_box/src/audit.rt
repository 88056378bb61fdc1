//! The releases of several runs, how many different ones there are, and a bound on that number.

ghost use Rattle.std.specs.Prelude.{◌≡◌, ◌+◌, ◌≤◌, ◌^◌, IfOk, length, map};
ghost use Rattle.std.specs.List.{AllZip};
ghost use Rattle.leak_bound.specs.Digits.{digits};
ghost use Rattle.leak_bound.specs.Records.{distinct_count, classes_of};
ghost use Rattle.run_limits.specs.Cycles.{IsCycles};
ghost use Rattle.black_box.specs.Outcomes.{seen, IsOutcome, outcome};
ghost use Rattle.black_box.specs.Files.{ready_lists};
ghost use Rattle.black_box.specs.Audits.{same_cycles, shown};

use crate::class::{Classes, classify};
use crate::release::{Releases, release};
use leak_bound::count::digits;
use run_limits::MAX_RUNS;
use std::alloc::Global;
use text_base::pos::Memory;

/// What is told of several runs.
#[derive(Debug, PartialEq, Eq, Drop)]
pub struct BoxAudit {
    /// The releases of each run, in order.
    pub runs: Vec<Releases>,
    /// How many different lists of releases there are, which is at most `base` to the power of `exponent`.
    pub distinct: u32,
    /// One more than the limit.
    pub base: u64,
    /// How many binary digits the limit has.
    pub exponent: u32,
    /// For each run the place, from 1, of its list of releases among the different ones, in the order of their
    /// first appearance.
    pub classes: Vec<u32>,
}

fn all_releases(
    alloc: Global,
    all: &[Vec<u64>],
    first: u64,
    limit: u64,
) -> Result<Vec<Releases>, Memory>
    requires first { IsCycles first }
    requires limit { IsCycles limit }
    ensures { IfOk result (λ v. map seen v.items ≡ map (outcome first limit) (ready_lists all.now)) }
{
    let mut runs = Vec::new(alloc);
    for ready in all {
        runs.push(release(alloc, ready.as_slice(), first, limit)?)?;
    }
    Ok(runs)
}

/// The releases up to a limit of at most 4,096 runs, which are given by the ready cycles of their events, and
/// how many different lists of releases there are. `first` is the distance of the slots in the first epoch.
///
/// `first` and `limit` are from 1 to 2^40.
///
/// # Errors
/// Only want of memory.
pub fn box_audit(
    alloc: Global,
    all: &[Vec<u64>],
    first: u64,
    limit: u64,
) -> Result<BoxAudit, Memory>
    requires few { length all.now ≤ MAX_RUNS }
    requires first { IsCycles first }
    requires limit { IsCycles limit }
    ensures runs { IfOk result (λ a. AllZip (IsOutcome first limit) (ready_lists all.now) (map seen a.runs.items)) }
    ensures distinct { IfOk result (λ a. a.distinct ≡ distinct_count same_cycles (shown a.runs.items)) }
    ensures classes { IfOk result (λ a. a.classes.items ≡ classes_of same_cycles (shown a.runs.items)) }
    ensures base { IfOk result (λ a. a.base ≡ limit + 1) }
    ensures exponent { IfOk result (λ a. a.exponent ≡ digits limit) }
    ensures bound { IfOk result (λ a. a.distinct ≤ a.base ^ a.exponent) }

    // The runs, computed.
    ensures computed { IfOk result (λ a. map seen a.runs.items ≡ map (outcome first limit) (ready_lists all.now)) }
{
    let runs = all_releases(alloc, all, first, limit)?;
    let Classes { distinct, places } = classify(alloc, runs.as_slice())?;
    Ok(BoxAudit {
        runs,
        distinct,
        base: limit + 1,
        exponent: digits(limit),
        classes: places,
    })
}
