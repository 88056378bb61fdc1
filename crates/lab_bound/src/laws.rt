//! What is true of every answer.

ghost use Rattle.lab_bound.specs.Complete.{HasOneBound};
ghost use Rattle.lab_bound.specs.Enough.{AllAreEnough};
ghost use Rattle.lab_bound.specs.Others.{AllBoundOthers, AllBoundOthersOwn};

use sharp_history::laws::{
    lowered_few_sequences_own_of_histories, lowered_few_sequences_sharp_of_histories,
};
use tool_stages::laws::partitioned_keep_the_laws;

/// A law: on a machine with partitions the sharp count of what is told of the levels bounds the number of different sequences
/// that the report counts, and what seeing one of them is worth to somebody who guesses the start; where the end is counted,
/// so it does where the ends are seen too. Where relevant mitigates stand apart, so do the counts by shared time and by own
/// first predictions, which are no greater.
pub fn sharp_counts_are_enough()
    ensures { AllAreEnough }
{
    partitioned_keep_the_laws();
    lowered_few_sequences_sharp_of_histories();
    lowered_few_sequences_own_of_histories();
}

/// A law: there the numbers bound what other starts show too, whatever a file lists: together with the listed ones all starts
/// that agree with them for the observer, halt by T, and begin no relevant mitigation whose first prediction is below the
/// least that is told of its level.
pub fn sharp_counts_bound_others()
    ensures { AllBoundOthers }
{
    partitioned_keep_the_laws();
    lowered_few_sequences_sharp_of_histories();
}

/// A law: so does the count by own first predictions, where no relevant mitigation of the other starts has a first
/// prediction below the one that is listed at its place.
pub fn own_counts_bound_others()
    ensures { AllBoundOthersOwn }
{
    partitioned_keep_the_laws();
    lowered_few_sequences_own_of_histories();
}

/// A law: where both files are told to hold bytes, and neither count of faults rose, the answer is one status and one
/// text.
pub fn one_bound()
    ensures { HasOneBound }
{}
