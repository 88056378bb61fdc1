//! The words of a made program. The function does nothing at run time: its contract says what is true.

ghost use Rattle.std.specs.Prelude.{◌<◌};
ghost use Rattle.mit_gen.specs.Made.{program_text};
ghost use Rattle.made_laws.specs.Words.{HasWords};
ghost use Rattle.made_laws.specs.MadeWords.{program_words};

/// The text of a made program has tokens, and they say its declarations and its units.
pub fn made_text_has_words(size: u32, number: u32)
    requires { 0 < size }
    ensures { HasWords (program_text size number) (program_words size number) }
{}
