//! What is true of every answer.

ghost use Rattle.lab_seen.specs.Bounded.{FieldsAreFew, FieldsAreWithinCut};
ghost use Rattle.lab_seen.specs.Once.{HasOneSeen};

use tool_stages::laws::typed_are_sound;

/// A law: of an accepted program, in each environment and for each observer, starts that agree have at most as many
/// different fields as the bound says that `cut` tells. The starts may be those of many files.
pub fn seen_is_bounded()
    ensures few { FieldsAreFew }
    ensures cut { FieldsAreWithinCut }
{
    typed_are_sound();
}

/// A law: where both files are told to hold bytes and no count of their faults rose, the answer of `seen` is one
/// status and one text.
pub fn one_seen()
    ensures { HasOneSeen }
{}
