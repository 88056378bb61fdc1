//! What is true of every answer.

ghost use Rattle.lab_tool.specs.Once.{HasOneAnswer};
ghost use Rattle.lab_tool.specs.Worth.{AnswersAreWorth};

use lab_bound::laws::{
    own_counts_bound_others, sharp_counts_are_enough, sharp_counts_bound_others,
};
use lab_seen::laws::seen_is_bounded;
use lab_why::laws::chains_refute;

/// A law: a question has one answer. Where each file that it names is told to hold bytes and no count of their faults
/// rose, the answer of `lab_main` is one status and one text.
pub fn one_answer()
    ensures { HasOneAnswer }
{}

/// A law: on machines with partitions the printed counts bound what starts show that agree, those of a file and others; what
/// `seen` writes is as few; a chain of `why` refutes every labelling; and what `tune` tells of runs is so of the code that has the other number.
pub fn answers_are_worth()
    ensures { AnswersAreWorth }
{
    sharp_counts_are_enough();
    sharp_counts_bound_others();
    own_counts_bound_others();
    seen_is_bounded();
    chains_refute();
}
