//! The starts of a made program. The function does nothing at run time: its contract says what is true.

ghost use Rattle.std.specs.Prelude.{◌<◌};
ghost use Rattle.mit_syntax.specs.Program.{Syntax};
ghost use Rattle.made_laws.specs.MadeStarts.{IsMade, HasMadeStarts};

use crate::words::made_text_has_words;

/// The text of the starts gives every made program its four starts, and each of them is valid for the program.
pub fn made_starts_are_valid(size: u32, number: u32)
    requires { 0 < size }
    ensures { (p : Syntax) → IsMade size number p → HasMadeStarts p }
{
    made_text_has_words(size, number);
}
