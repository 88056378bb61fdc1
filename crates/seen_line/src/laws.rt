//! What a field tells.

ghost use Rattle.seen_line.specs.Field.{FieldsTellApart};

/// A law: two lists of assignments to a program's variables have one field exactly where they are one list, so
/// two runs have the same field exactly where they show the same to the observer.
pub fn fields_tell_apart()
    ensures { FieldsTellApart }
{}
