//! What is true of every answer.

ghost use Rattle.std.specs.Prelude.{List};
ghost use Rattle.label_code.specs.Machine.{Event};
ghost use Rattle.lab_leak.specs.Classes.{AreTallied};
ghost use Rattle.lab_leak.specs.Complete.{HasOneLeak};
ghost use Rattle.lab_leak.specs.Ordered.{AllAreOrdered};

use lab_bound::laws::sharp_counts_are_enough;

/// A law: of the classes of runs there are as many as different sequences, and each has a first run that shows it.
pub fn classes_are_tallied()
    ensures { (zs : List (List Event)) → AreTallied zs }
{}

/// A law: of what is told of runs on a machine with partitions, the number of classes is at most the sharp count, and that is
/// at most the bound. Where relevant mitigates stand apart, it is at most the count by shared time, and the one by own first
/// predictions, which are no greater than the sharp count.
pub fn numbers_are_ordered()
    ensures { AllAreOrdered }
{
    sharp_counts_are_enough();
}

/// A law: where both files are told to hold bytes, and neither count of faults rose, the answer is one status and one
/// text.
pub fn one_leak()
    ensures { HasOneLeak }
{}
