//! Which runs show the same releases.

ghost use Rattle.std.specs.Prelude.{◌≡◌, ◌≤◌, IfOk, length};
ghost use Rattle.leak_bound.specs.Records.{distinct_count, classes_of};
ghost use Rattle.black_box.specs.Audits.{same_cycles, shown};

use crate::release::Releases;
use indexmap::IndexSet;
use run_limits::MAX_RUNS;
use std::alloc::Global;
use text_base::pos::Memory;

/// Which lists of releases are equal.
#[derive(Drop)]
pub(crate) struct Classes {
    /// How many different lists there are.
    pub(crate) distinct: u32,
    /// For each list its place, from 1, among the different ones in the order of their first appearance.
    pub(crate) places: Vec<u32>,
}

/// Compares the lists of releases of at most `MAX_RUNS` runs.
pub(crate) fn classify(alloc: Global, runs: &[Releases]) -> Result<Classes, Memory>
    requires { length runs.now ≤ MAX_RUNS }
    ensures distinct { IfOk result (λ c. c.distinct ≡ distinct_count same_cycles (shown runs.now)) }
    ensures places { IfOk result (λ c. c.places.items ≡ classes_of same_cycles (shown runs.now)) }
{
    let mut seen: IndexSet<&[u64]> = IndexSet::new(alloc);
    let mut places = Vec::new(alloc);
    for run in runs {
        let (place, _) = seen.insert_full(run.at.as_slice())?;
        places.push(place as u32 + 1)?;
    }
    Ok(Classes {
        distinct: seen.len() as u32,
        places,
    })
}
