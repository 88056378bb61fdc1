//! The command words.

ghost use Rattle.std.specs.Prelude.{◌≡◌};
ghost use Rattle.lab_words.specs.QuestionAsked.{verb_named};

/// The command words.
#[derive(Clone, Copy, Debug, PartialEq, Eq)]
pub enum Verb {
    Why,
    Seen,
    Timeline,
    Bound,
    Steady,
    Leak,
    Tune,
    Check,
    Help,
    Version,
}

/// The command word that a text is.
pub(crate) fn verb_of(word: &str) -> Option<Verb>
    ensures { result ≡ verb_named word.now }
{
    match word {
        "why" => Some(Verb::Why),
        "seen" => Some(Verb::Seen),
        "timeline" => Some(Verb::Timeline),
        "bound" => Some(Verb::Bound),
        "steady" => Some(Verb::Steady),
        "leak" => Some(Verb::Leak),
        "tune" => Some(Verb::Tune),
        "check" => Some(Verb::Check),
        "help" => Some(Verb::Help),
        "version" => Some(Verb::Version),
        _ => None,
    }
}
