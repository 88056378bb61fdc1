//! How many runs and how many cycles there may be.
#![tactic(auto)]

ghost use Rattle.std.specs.Prelude.{◌<◌, ◌≤◌, ◌^◌, MatchBool};

/// The most runs of a list.
pub const MAX_RUNS: usize = 4096;

/// The most cycles of a budget, and the greatest first length of a slot: 2^40.
pub const MAX_CYCLES: u64 = 1_099_511_627_776;

/// The most digits of a number in a text that is read.
pub const MAX_DIGITS: usize = 20;

/// Whether there are more runs than a list may have.
pub fn are_too_many(runs: usize) -> bool
    ensures { MatchBool result (4096 < runs) (runs ≤ 4096) }
{
    runs > MAX_RUNS
}

/// Whether a cycle is after the last one that may be told.
pub fn is_too_late(cycle: u64) -> bool
    ensures { MatchBool result (2 ^ 40 < cycle) (cycle ≤ 2 ^ 40) }
{
    cycle > MAX_CYCLES
}
