//! All runs with one first prediction.

ghost use Rattle.std.specs.Prelude.{◌≡◌, ◌≤◌, ◌<◌, ◌-◌, ◌^◌, IfOk, IfErr};
ghost use Rattle.std.specs.List.{sum_by};
ghost use Rattle.run_entries.specs.Entries.{entries_of};
ghost use Rattle.first_front.specs.declared.fault.WalkFault.TheVariants as fault;
ghost use Rattle.first_front.specs.Told.{told_at, shown_at, end_at, latest_at, IsOutcome};

use crate::class::{Class, Varied};
use crate::fault::WalkFault;
use run_entries::entry::Entry;
use run_entries::replay::{Numbers, Replay};
use std::alloc::Global;

// A run: the miss count of each mitigation that has ended, in this order, the same of those that are told apart, and its
// last cycle.
#[derive(Drop)]
struct Played {
    counts: Vec<u32>,
    shown: Vec<u32>,
    end: u64,
}

// The run with these entries, with a first prediction.
fn play(
    alloc: Global,
    entries: &[Entry],
    varied: &Varied<'_>,
    first: u64,
) -> Result<Played, WalkFault>
    requires { first ≤ 2 ^ 40 }
    ensures counts { IfOk result (λ r. r.counts.items ≡ told_at varied.now first (entries_of entries.now)) }
    ensures shown { IfOk result (λ r. r.shown.items ≡ shown_at varied.now first (entries_of entries.now)) }
    ensures end { IfOk result (λ r. r.end ≡ end_at varied.now first (entries_of entries.now)) }
    ensures fault { IfErr result (λ e. e ≡ fault.TooLong → 2 ^ 64 - 1 < end_at varied.now first (entries_of entries.now)) }
{
    let numbers = Numbers {
        written: varied.written,
        place: varied.place,
        number: first as i64,
    };
    let Some(replay) = Replay::of(alloc, entries, &numbers, varied.relevant, u64::MAX)? else {
        return Err(WalkFault::TooLong);
    };
    let Replay {
        clock,
        counts,
        shown,
        ..
    } = replay;
    Ok(Played {
        counts,
        shown,
        end: clock,
    })
}

/// All runs with one first prediction.
#[derive(Drop)]
pub struct Outcome {
    /// The miss counts of each class's runs, in the order in which the mitigations end.
    pub counts: Vec<Vec<u32>>,
    /// The same of the mitigations that are told apart.
    pub shown: Vec<Vec<u32>>,
    /// The last cycles of the runs of all starts, summed up.
    pub cost: u128,
    /// The last cycle of the run that ends last.
    pub latest: u64,
}

impl Outcome {
    /// All runs with one first prediction.
    ///
    /// # Errors
    /// `TooLong` where one of them ends after cycle 2^64 - 1; `Memory` where memory is wanting.
    pub fn of(
        alloc: Global,
        classes: &[Class],
        varied: &Varied<'_>,
        first: u64,
    ) -> Result<Outcome, WalkFault>
        requires first { first ≤ 2 ^ 40 }
        requires starts { sum_by (λ c. c.starts) classes.now < 2 ^ 64 }
        ensures outcome { IfOk result (IsOutcome varied.now classes.now first) }
        ensures fault { IfErr result (λ e. e ≡ fault.TooLong → 2 ^ 64 - 1 < latest_at varied.now first classes.now) }
    {
        let mut counts = Vec::new(alloc);
        let mut shown = Vec::new(alloc);
        let mut cost: u128 = 0;
        let mut latest = 0;
        for class in classes {
            let run = play(alloc, &class.entries, varied, first)?;
            cost += class.starts as u128 * run.end as u128;
            latest = latest.max(run.end);
            let Played {
                counts: all,
                shown: some,
                ..
            } = run;
            counts.push(all)?;
            shown.push(some)?;
        }
        Ok(Outcome {
            counts,
            shown,
            cost,
            latest,
        })
    }
}
