//! What the numbers are worth, as a contract of a function that does nothing.

ghost use Rattle.lab_worth.specs.Worth.{ListedAreWorth, AllAreWorth};

use lab_bound::laws::{sharp_counts_are_enough, sharp_counts_bound_others};

/// On a machine with partitions the sharp count of what is told of the levels bounds what seeing a run is worth, whatever the
/// starts weigh and whatever actions gain at them: it multiplies the best gain by at most that count, and tells at most the
/// logarithm of it, of the listed starts, and of these with any others that agree with them, halt by T, and begin no
/// relevant mitigation whose first prediction is below the least that is told of its level. So it is of the ends too where
/// these are counted, and of the count by shared time where that is told.
pub fn numbers_are_worth<A>()
    ensures listed { ListedAreWorth A }
    ensures others { AllAreWorth A }
{
    sharp_counts_are_enough();
    sharp_counts_bound_others();
}
