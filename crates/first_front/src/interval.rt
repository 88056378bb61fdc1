//! First predictions on which no miss count changes.

ghost use Rattle.std.specs.Prelude.{◌≡◌, ◌≢◌, ◌≤◌, ◌<◌, ◌^◌, ◌+◌, ◌-◌, map, IfOk, IfErr, MatchBool};
ghost use Rattle.std.specs.List.{sum_by, list_any};
ghost use Rattle.std.specs.Cmp.Lexicographic.{pointwise};
ghost use Rattle.std.specs.Prelude.{eqb};
ghost use Rattle.std.specs.Set.{distinct_count};
ghost use Rattle.first_front.specs.declared.fault.WalkFault.TheVariants as fault;
ghost use Rattle.first_front.specs.Told.{tells, latest_at};
ghost use Rattle.first_front.specs.Intervals.{IsInterval, IsLast, IsTooLong};

use crate::class::{Class, Varied};
use crate::fault::WalkFault;
use crate::outcome::Outcome;
use std::alloc::Global;

/// The greatest first prediction: 2^40.
pub const MAX_FIRST: u64 = 1_099_511_627_776;

/// First predictions with which each run has the same miss counts, and what the least of them tells and costs.
#[derive(Clone, Copy, Debug, PartialEq, Eq)]
pub struct Interval {
    /// The least of them, which is the cheapest.
    pub first: u64,
    /// The greatest of them.
    pub last: u64,
    /// How many different lists of miss counts the runs have, of the mitigations that are told apart.
    pub things: usize,
    /// The last cycles of the runs of all starts with the least of them, summed up.
    pub cost: u128,
    /// The last cycle of the run that ends last with the least of them.
    pub latest: u64,
}

// Whether these are among some lists of miss counts.
fn is_among(lists: &[Vec<u32>], counts: &Vec<u32>) -> bool
    ensures { result ≡ list_any (λ x. pointwise eqb counts.now.items x.items) lists.now }
{
    lists.iter().any(|list| counts == list)
}

// How many different ones there are among some lists of miss counts.
fn different(lists: &[Vec<u32>]) -> usize
    ensures { result ≡ distinct_count (pointwise eqb) (map (λ x. x.items) lists.now) }
{
    let mut different = 0;
    for index in 0..lists.len() {
        let again = is_among(&lists[index + 1..], &lists[index]);
        if !again {
            different += 1;
        }
    }
    different
}

// Whether the runs with a first prediction have these miss counts.
fn is_told(
    alloc: Global,
    classes: &[Class],
    varied: &Varied<'_>,
    first: u64,
    counts: &Vec<Vec<u32>>,
) -> Result<bool, WalkFault>
    requires first { first ≤ 2 ^ 40 }
    requires starts { sum_by (λ c. c.starts) classes.now < 2 ^ 64 }
    ensures told { IfOk result (λ same. MatchBool same (tells varied.now first classes.now ≡ map (λ x. x.items) counts.now.items)
        (tells varied.now first classes.now ≢ map (λ x. x.items) counts.now.items)) }
    ensures short { IfOk result (λ same. latest_at varied.now first classes.now ≤ 2 ^ 64 - 1) }
    ensures fault { IfErr result (λ e. e ≡ fault.TooLong → 1 ≤ first → IsTooLong varied.now classes.now) }
{
    let outcome = Outcome::of(alloc, classes, varied, first)?;
    Ok(outcome.counts == *counts)
}

// The last first prediction up to which the runs have the miss counts that they have with this one: by halving.
fn last_told(
    alloc: Global,
    classes: &[Class],
    varied: &Varied<'_>,
    first: u64,
    counts: &Vec<Vec<u32>>,
) -> Result<u64, WalkFault>
    requires some { 1 ≤ first }
    requires first { first ≤ 2 ^ 40 }
    requires starts { sum_by (λ c. c.starts) classes.now < 2 ^ 64 }
    requires counts { map (λ x. x.items) counts.now.items ≡ tells varied.now first classes.now }
    requires short { latest_at varied.now first classes.now ≤ 2 ^ 64 - 1 }
    ensures last { IfOk result (IsLast varied.now classes.now first) }
    ensures short { IfOk result (λ last. latest_at varied.now last classes.now ≤ 2 ^ 64 - 1) }
    ensures fault { IfErr result (λ e. e ≡ fault.TooLong → IsTooLong varied.now classes.now) }
{
    let mut low = first;
    let mut high = MAX_FIRST;
    while low < high {
        let middle = low + (high - low + 1) / 2;
        let same = is_told(alloc, classes, varied, middle, counts)?;
        if same {
            low = middle;
        } else {
            high = middle - 1;
        }
    }
    Ok(low)
}

impl Interval {
    /// The first predictions from this one on with which each run has the same miss counts as with this one.
    ///
    /// # Errors
    /// `TooLong` where with some first prediction from 1 to 2^40 a run ends after cycle 2^64 - 1; `Memory` where memory is
    /// wanting.
    pub fn from(
        alloc: Global,
        classes: &[Class],
        varied: &Varied<'_>,
        first: u64,
    ) -> Result<Interval, WalkFault>
        requires some { 1 ≤ first }
        requires first { first ≤ 2 ^ 40 }
        requires starts { sum_by (λ c. c.starts) classes.now < 2 ^ 64 }
        ensures first { IfOk result (λ i. i.first ≡ first) }
        ensures interval { IfOk result (IsInterval varied.now classes.now) }
        ensures fault { IfErr result (λ e. e ≡ fault.TooLong → IsTooLong varied.now classes.now) }
    {
        let outcome = Outcome::of(alloc, classes, varied, first)?;
        let last = last_told(alloc, classes, varied, first, &outcome.counts)?;
        let things = different(&outcome.shown);
        Ok(Interval {
            first,
            last,
            things,
            cost: outcome.cost,
            latest: outcome.latest,
        })
    }
}
