//! What is true of every answer.

ghost use Rattle.mit_tool.specs.Complete.{CertifiedIsTaken};
ghost use Rattle.mit_tool.specs.Once.{HasOneAnswer};

use black_box::laws::one_list_of_outcomes;

/// A law: a command has one answer. Where each file that it names is told to hold bytes and no count of their faults
/// rose, the answer of `mitigate_main` is one status and one text.
pub fn one_answer()
    ensures { HasOneAnswer }
{
    one_list_of_outcomes();
}

/// A law: what `certify` prints of a program can be rechecked with it.
pub fn certified_is_taken()
    ensures { CertifiedIsTaken }
{}
