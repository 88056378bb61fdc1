//! What the words ask for.

ghost use Rattle.std.specs.Prelude.{◌≡◌, IfOk, IsErrOf, None, Some, map, string_bytes};
ghost use Rattle.lab_words.specs.QuestionAsked.{IsInRange, asked_after, question_of};
ghost use Rattle.lab_words.specs.QuestionViews.{asked_of};

use crate::forms::form;
use crate::machine::Machine;
use crate::readers::question;
use crate::verbs::{Verb, verb_of};
use std::alloc::Global;
use tool_words::forms::matched;
use tool_words::words::WordsFault;

/// What words ask of the lab. Files, observers and names are the words themselves; whether there are such is not seen
/// here.
#[derive(Clone, Copy, Debug, PartialEq, Eq)]
pub enum Question<'a> {
    /// `why FILE [--of NAME]`
    Why {
        file: &'a str,
        of: Option<&'a str>,
    },
    /// `why FILE STARTS`
    WhyStarts {
        file: &'a str,
        starts: &'a str,
    },
    /// `why FILE STARTS --observer L [--env E | --machine M] [--budget T]`, `budget` from 1 to `MAX_CYCLES`
    WhyAudit {
        file: &'a str,
        starts: &'a str,
        observer: &'a str,
        machine: Machine<'a>,
        budget: u64,
    },
    /// `seen FILE STARTS --observer L [--env E | --machine M] [--budget T] [--refused]`, `budget` from 1 to `MAX_CYCLES`
    Seen {
        file: &'a str,
        starts: &'a str,
        observer: &'a str,
        machine: Machine<'a>,
        budget: u64,
        refused: bool,
    },
    /// `timeline FILE STARTS [--env E | --machine M] [--budget T] [--observer L] [--refused]`, `budget` from 1 to `MAX_CYCLES`
    Timeline {
        file: &'a str,
        starts: &'a str,
        observer: Option<&'a str>,
        machine: Machine<'a>,
        budget: u64,
        refused: bool,
    },
    /// `bound FILE STARTS --observer L [--env E | --machine M] [--budget T]`, `budget` from 1 to `MAX_CYCLES`
    Bound {
        file: &'a str,
        starts: &'a str,
        observer: &'a str,
        machine: Machine<'a>,
        budget: u64,
    },
    /// `steady FILE --observer L [--parts P] [--constant NAMES] [--whole]`
    Steady {
        file: &'a str,
        observer: &'a str,
        parts: Option<&'a str>,
        constant: Option<&'a str>,
        whole: bool,
    },
    /// `leak FILE STARTS --observer L [--env E | --machine M] [--budget T] [--refused]`, `budget` from 1 to `MAX_CYCLES`
    Leak {
        file: &'a str,
        starts: &'a str,
        observer: &'a str,
        machine: Machine<'a>,
        budget: u64,
        refused: bool,
    },
    /// `tune FILE STARTS --observer L [--env E | --machine M] [--budget T] [--of #K] [--bits B]`, `budget` from 1 to
    /// `MAX_CYCLES`, `bits` from 0 to 64
    Tune {
        file: &'a str,
        starts: &'a str,
        observer: &'a str,
        machine: Machine<'a>,
        budget: u64,
        mark: u32,
        bits: Option<u32>,
    },
    /// `check FILE --json`
    Check {
        file: &'a str,
    },
    /// `help [COMMAND]`
    Help {
        command: Option<Verb>,
    },
    /// `version`
    Version,
}

/// Reads the words that follow a command word.
fn read_after<'a>(
    alloc: Global,
    verb: Verb,
    words: &'a [String],
) -> Result<Question<'a>, WordsFault>
    ensures asked { IfOk result (λ q. asked_after verb (map string_bytes words.entry.now) ≡ Some (asked_of q)) }
    ensures range { IfOk result (λ q. IsInRange (asked_of q)) }
    ensures usage { IsErrOf result WordsFault.Usage → asked_after verb (map string_bytes words.entry.now) ≡ None }
{
    let Ok(form) = form(alloc, verb) else {
        return Err(WordsFault::Memory);
    };
    let matches = matched(form, words)?;
    question(verb, &matches).ok_or(WordsFault::Usage)
}

/// Reads the words. `Usage` comes exactly where they ask for nothing, want of memory aside.
pub fn read_question<'a>(alloc: Global, words: &'a [String]) -> Result<Question<'a>, WordsFault>
    ensures asked { IfOk result (λ q. question_of (map string_bytes words.entry.now) ≡ Some (asked_of q)) }
    ensures range { IfOk result (λ q. IsInRange (asked_of q)) }
    ensures usage { IsErrOf result WordsFault.Usage → question_of (map string_bytes words.entry.now) ≡ None }
{
    let Some((word, rest)) = words.split_first() else {
        return Err(WordsFault::Usage);
    };
    let Some(verb) = verb_of(word.as_str()) else {
        return Err(WordsFault::Usage);
    };
    read_after(alloc, verb, rest)
}
