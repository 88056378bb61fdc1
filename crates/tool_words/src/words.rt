//! The words of a command line, without the program's name.

ghost use Rattle.std.specs.Prelude.{◌≡◌, IfOk, IsErrOf, None, Some, map, string_bytes};
ghost use Rattle.tool_words.specs.WordsAsked.{IsInRange, asked_after, asked_of, command_of};

use crate::forms::matched;
use crate::verbs::{Verb, command, form, verb_of};
use run_limits::MAX_CYCLES;
use std::alloc::Global;

/// The most steps that a run of the source may be asked for.
pub const MAX_STEPS: u64 = MAX_CYCLES;

/// The budget where none is given, in cycles.
pub const DEFAULT_BUDGET: u64 = 1_000_000;

/// The most units of a made program.
pub const MAX_SIZE: u64 = 10_000;

/// The greatest number from which a program is made.
pub const MAX_SEED: u64 = 2_147_483_647;

/// An environment that `--env` names.
#[derive(Clone, Copy, Debug, PartialEq, Eq)]
pub enum EnvName {
    /// No state and no penalty.
    Flat,
    /// Partitioned caches and a translation buffer.
    Part,
    /// As `Part`, with a second level of cache.
    Part2,
}

/// What words ask for. Files and observers are named by the words themselves; whether there are such is not seen here.
#[derive(Clone, Copy, Debug, PartialEq, Eq)]
pub enum Command<'a> {
    /// `check FILE`
    Check {
        file: &'a str,
    },
    /// `infer FILE`
    Infer {
        file: &'a str,
    },
    /// `compile FILE`
    Compile {
        file: &'a str,
    },
    /// `run FILE [STARTS] [--env E] [--budget T] [--observer L]`, `budget` from 1 to `MAX_CYCLES`
    Run {
        file: &'a str,
        starts: Option<&'a str>,
        env: EnvName,
        budget: u64,
        observer: Option<&'a str>,
    },
    /// `meaning FILE [STARTS] --steps N`, `steps` at most `MAX_STEPS`
    Meaning {
        file: &'a str,
        starts: Option<&'a str>,
        steps: u64,
    },
    /// `audit FILE STARTS --observer L [--env E] [--budget T]`, `budget` from 1 to `MAX_CYCLES`
    Audit {
        file: &'a str,
        starts: &'a str,
        observer: &'a str,
        env: EnvName,
        budget: u64,
    },
    /// `gen SIZE NUMBER`, `size` from 1 to `MAX_SIZE` and `number` at most `MAX_SEED`
    Gen {
        size: u32,
        number: u32,
    },
    /// `cut FILE STARTS --observer L [--env E] [--budget T]`, `budget` from 1 to `MAX_CYCLES`
    Cut {
        file: &'a str,
        starts: &'a str,
        observer: &'a str,
        env: EnvName,
        budget: u64,
    },
    /// `blackbox READY --first Q [--budget T]`, `first` and `budget` from 1 to `MAX_CYCLES`
    Blackbox {
        ready: &'a str,
        first: u64,
        budget: u64,
    },
    /// `certify FILE`
    Certify {
        file: &'a str,
    },
    /// `recheck FILE CERTIFICATE`
    Recheck {
        file: &'a str,
        certificate: &'a str,
    },
}

/// Why words are not read.
#[derive(Clone, Copy, Debug, PartialEq, Eq)]
pub enum WordsFault {
    /// The words ask for nothing.
    Usage,
    /// There is no memory to read them.
    Memory,
}

/// Reads the words that follow a command word.
fn read_after<'a>(alloc: Global, verb: Verb, words: &'a [String]) -> Result<Command<'a>, WordsFault>
    ensures asked { IfOk result (λ c. asked_after verb (map string_bytes words.entry.now) ≡ Some (asked_of c)) }
    ensures range { IfOk result (λ c. IsInRange (asked_of c)) }
    ensures usage { IsErrOf result WordsFault.Usage → asked_after verb (map string_bytes words.entry.now) ≡ None }
{
    let Ok(form) = form(alloc, verb) else {
        return Err(WordsFault::Memory);
    };
    let matches = matched(form, words)?;
    command(verb, &matches).ok_or(WordsFault::Usage)
}

/// Reads the words. `Usage` comes exactly where they ask for nothing, want of memory aside.
pub fn read_words<'a>(alloc: Global, words: &'a [String]) -> Result<Command<'a>, WordsFault>
    ensures asked { IfOk result (λ c. command_of (map string_bytes words.entry.now) ≡ Some (asked_of c)) }
    ensures range { IfOk result (λ c. IsInRange (asked_of c)) }
    ensures usage { IsErrOf result WordsFault.Usage → command_of (map string_bytes words.entry.now) ≡ None }
{
    let Some((word, rest)) = words.split_first() else {
        return Err(WordsFault::Usage);
    };
    let Some(verb) = verb_of(word.as_str()) else {
        return Err(WordsFault::Usage);
    };
    read_after(alloc, verb, rest)
}
