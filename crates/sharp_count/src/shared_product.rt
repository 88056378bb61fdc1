//! The count by shared time.

ghost use Rattle.std.specs.Prelude.{◌≡◌, IfOk};
ghost use Rattle.sharp_count.specs.Count.{fitting};
ghost use Rattle.sharp_count.specs.Shared.{shared_by, shared_of};

use crate::count::{LevelRuns, miss_counts, product};
use crate::lists::never_falling;
use crate::shared::{MAX_SHARED, shared_count};
use std::alloc::{AllocError, Global};

/// The factor of one level: how many lists of its miss counts never fall and fit into T together. Of more than
/// `MAX_SHARED` mitigations all lists that never fall are counted.
fn factor(alloc: Global, level: LevelRuns, t: u64) -> Result<Option<u128>, AllocError>
    ensures { IfOk result (λ r. r ≡ fitting (shared_by t level.first level.mitigations)) }
{
    if level.mitigations > MAX_SHARED {
        return Ok(never_falling(miss_counts(t, level.first), level.mitigations));
    }
    let count = shared_count(alloc, level.mitigations, level.first, t)?;
    Ok(count)
}

/// The count by shared time of runs that halt by cycle T: the product over the levels of the number of lists of miss
/// counts that never fall and have cycles that add up to at most T. There is no answer where it is 2^128 or more.
///
/// The levels are told in their order, each with its mitigations and their least first prediction.
///
/// # Errors
/// `AllocError` where memory runs out.
pub fn shared_product(
    alloc: Global,
    levels: &[LevelRuns],
    t: u64,
) -> Result<Option<u128>, AllocError>
    ensures { IfOk result (λ r. r ≡ fitting (shared_of t levels.now)) }
{
    let mut count = Some(1);
    for level in levels {
        let lists = factor(alloc, *level, t)?;
        count = product(lists, count);
    }
    Ok(count)
}
