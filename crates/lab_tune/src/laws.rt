//! What is true of every answer.

ghost use Rattle.lab_tune.specs.Complete.{HasOneTune};

/// A law: where both files are told to hold bytes, and neither count of faults rose, the answer is one status and one
/// text.
pub fn one_tune()
    ensures { HasOneTune }
{}
