//! The sharp count.

ghost use Rattle.std.specs.Prelude.{◌≡◌, ◌*◌, ◌<◌, ◌≤◌, ℕ, length, slice_index, EachIndex, SomeIndex};
ghost use Rattle.leak_bound.specs.Rising.{sharp};
ghost use Rattle.sharp_count.specs.Count.{fitting};
ghost use Rattle.sharp_count.specs.Levels.{miss_counts, values_by, counts_of, values_of};

use crate::lists::never_falling;
use leak_bound::count::digits;

/// What is told of one level.
#[derive(Clone, Copy, Debug, PartialEq, Eq)]
pub struct LevelRuns {
    /// How many relevant mitigations of the level a run begins, or, of runs that are cut, how many end at most.
    pub mitigations: u64,
    /// The least of their first predictions. 0 stands for 1.
    pub first: u64,
}

impl LevelRuns {
    /// What is told of a level whose relevant mitigations have these first predictions. Where there are none, 1 stands
    /// for the least.
    pub fn of(firsts: &[u64]) -> LevelRuns
        ensures mitigations { result.mitigations ≡ length firsts.now }
        ensures least { EachIndex firsts.now (λ k. result.first ≤ slice_index firsts.now k) }
        ensures one { 0 < length firsts.now → SomeIndex firsts.now (λ k. result.first ≡ slice_index firsts.now k) }
        ensures none { length firsts.now ≡ 0 → result.first ≡ 1 }
    {
        LevelRuns {
            mitigations: firsts.len() as u64,
            first: firsts.iter().copied().min().unwrap_or(1),
        }
    }
}

/// Whether the runs have halted, or are cut.
#[derive(Clone, Copy, Debug, PartialEq, Eq)]
pub enum Runs {
    Halted,
    Cut,
}

/// How many miss counts there are at which a mitigation can end by cycle T whose first prediction is at least `first`.
pub fn miss_counts(t: u64, first: u64) -> u32
    ensures exact { result ≡ miss_counts t first }
    ensures few { result ≤ 64 }
{
    let most = t / first.max(1);
    if most == 0 {
        return 0;
    }
    digits(most)
}

/// How many values the miss count of such a mitigation has: for a cut run one more, which stands for a mitigation that
/// has not ended.
fn values(runs: Runs, t: u64, first: u64) -> u32
    ensures { result ≡ values_by runs t first }
{
    let ended = miss_counts(t, first);
    match runs {
        Runs::Halted => ended,
        Runs::Cut => ended + 1,
    }
}

/// The product of a number and of one that may be too large to be told.
fn times(one: u128, other: Option<u128>) -> Option<u128>
    ensures { (n : ℕ) → other ≡ fitting n → result ≡ fitting (one * n) }
{
    if one == 0 {
        return Some(0);
    }
    let Some(other) = other else {
        return None;
    };
    one.checked_mul(other)
}

/// The product of two numbers, each of which may be too large to be told.
pub fn product(one: Option<u128>, other: Option<u128>) -> Option<u128>
    ensures { (m n : ℕ) → one ≡ fitting m → other ≡ fitting n → result ≡ fitting (m * n) }
{
    if let Some(one) = one {
        return times(one, other);
    }
    let Some(other) = other else {
        return None;
    };
    if other == 0 { Some(0) } else { None }
}

/// The sharp count of runs up to cycle T: the product over the levels of the number of lists of miss counts that never
/// fall. There is no answer where it is 2^128 or more.
///
/// The levels are told in their order, each with its mitigations and their least first prediction.
pub fn sharp_count(runs: Runs, levels: &[LevelRuns], t: u64) -> Option<u128>
    ensures { result ≡ fitting (sharp (values_of runs t levels.now) (length levels.now) (counts_of levels.now)) }
{
    let mut count = Some(1);
    for level in levels {
        let lists = never_falling(values(runs, t, level.first), level.mitigations);
        count = product(lists, count);
    }
    count
}
