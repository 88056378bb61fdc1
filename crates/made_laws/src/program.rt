//! What a made text spells. The functions do nothing at run time: their contracts say what is true.

ghost use Rattle.std.specs.Prelude.{◌≡◌, ◌<◌, List};
ghost use Rattle.mit_syntax.specs.declared.token.Token.{Token};
ghost use Rattle.mit_syntax.specs.Cut.{AreTokens};
ghost use Rattle.mit_parser.specs.declared.fault.ParseFault.{ParseFault};
ghost use Rattle.mit_parser.specs.declared.fault.ParseFault.TheVariants.{Memory};
ghost use Rattle.mit_parser.specs.Words.{told};
ghost use Rattle.mit_parser.specs.Spells.{Refuses};
ghost use Rattle.mit_gen.specs.Made.{program_text};
ghost use Rattle.parse_laws.specs.Spelled.{IsSpelled};

use crate::words::made_text_has_words;
use parse_laws::laws::spelled_is_not_refused;

/// The text of a made program spells a program within the limits, whose names are right.
pub fn made_program_is_spelled(size: u32, number: u32)
    requires { 0 < size }
    ensures { (tokens : List Token) → AreTokens (program_text size number) tokens → IsSpelled (told (program_text size number) tokens) }
{
    made_text_has_words(size, number);
}

/// The parser refuses the text of a made program for want of memory alone.
pub fn made_program_is_not_refused(size: u32, number: u32)
    requires { 0 < size }
    ensures { (tokens : List Token) → AreTokens (program_text size number) tokens → (f : ParseFault) → Refuses (told (program_text size number) tokens) f
        → f ≡ Memory }
{
    made_program_is_spelled(size, number);
    spelled_is_not_refused();
}
