//! The lines on words that ask for nothing.

ghost use Rattle.std.specs.Prelude.{◌≡◌, ◌==◌, IfOk, map, not, option_map, string_bytes};
ghost use Rattle.std.specs.Char.{is_ascii_graphic};
ghost use Rattle.std.specs.List.{list_all};
ghost use Rattle.clap.specs.Words.{found_of, rows_of};
ghost use Rattle.lab_words.specs.Refusal.{commands_there, form_told, gap, is_bare_option, is_dashed, is_plain, line_begin, missing};
ghost use Rattle.lab_words.specs.Refusal.{missing_line, next_shown, no_command_line, shown, told, unknown_line, wrong_line};

use crate::readers::lacks;
use crate::verbs::Verb;
use clap::ArgMatches;
use std::alloc::{AllocError, Global};

// The most bytes of a word that is told.
const MAX_SHOWN: usize = 64;

fn is_graphic(word: &str) -> bool
    ensures { result ≡ list_all is_ascii_graphic word.now }
{
    word.as_bytes().iter().all(|b| b.is_ascii_graphic())
}

// Whether a word can be told.
fn is_plain(word: &str) -> bool
    ensures { result ≡ is_plain word.now }
{
    word.len() <= MAX_SHOWN && is_graphic(word)
}

// What is told of a word.
fn shown(word: &str) -> &[u8]
    ensures { result.now ≡ shown word.now }
{
    if is_plain(word) {
        word.as_bytes()
    } else {
        b"a word that can't be shown"
    }
}

// Whether `-` begins a word.
fn is_dashed(word: &str) -> bool
    ensures { result ≡ is_dashed word.now }
{
    word.as_bytes().starts_with(b"-")
}

fn has_no_equals(word: &str) -> bool
    ensures { result ≡ list_all (λ b. not (b == 61)) word.now }
{
    word.as_bytes().iter().all(|b| *b != b'=')
}

// Whether `-` begins a word, and no `=` is in it.
fn is_bare_option(word: &str) -> bool
    ensures { result ≡ is_bare_option word.now }
{
    is_dashed(word) && has_no_equals(word)
}

// What is told after a word that can't stand: the word that may be its value.
fn next_shown<'a>(word: &str, rest: &'a [String]) -> Option<&'a [u8]>
    ensures { option_map (λ t. t.now) result ≡ next_shown word.now (map string_bytes rest.now) }
{
    let (next, _) = rest.split_first()?;
    if is_bare_option(word) && !is_dashed(next.as_str()) {
        return Some(shown(next.as_str()));
    }
    None
}

// What stands before such a word.
fn gap(next: Option<&[u8]>) -> &'static [u8]
    ensures { result.now ≡ gap (option_map (λ t. t.now) next.entry) }
{
    match next {
        Some(_) => b" ",
        None => b"",
    }
}

fn told<'a>(next: Option<&'a [u8]>) -> &'a [u8]
    ensures { result.now ≡ told (option_map (λ t. t.now) next.entry) }
{
    match next {
        Some(word) => word,
        None => b"",
    }
}

// The form of a command, with what its values may be.
fn form_told(verb: Verb) -> &'static [u8]
    ensures { result.now ≡ form_told verb }
{
    match verb {
        Verb::Why =>
            b"why FILE [STARTS] [--of NAME], or why FILE STARTS --observer LABEL [--env flat|part|part2] [--machine M] [--budget 1..1099511627776]\n",
        Verb::Seen =>
            b"seen FILE STARTS --observer LABEL [--env flat|part|part2] [--machine M] [--budget 1..1099511627776] [--refused]\n",
        Verb::Timeline =>
            b"timeline FILE STARTS [--env flat|part|part2] [--machine M] [--budget 1..1099511627776] [--observer LABEL] [--refused]\n",
        Verb::Bound =>
            b"bound FILE STARTS --observer LABEL [--env flat|part|part2] [--machine M] [--budget 1..1099511627776]\n",
        Verb::Steady =>
            b"steady FILE --observer LABEL [--parts LABEL] [--constant NAMES] [--whole]\n",
        Verb::Leak =>
            b"leak FILE STARTS --observer LABEL [--env flat|part|part2] [--machine M] [--budget 1..1099511627776] [--refused]\n",
        Verb::Tune =>
            b"tune FILE STARTS --observer LABEL [--env flat|part|part2] [--machine M] [--budget 1..1099511627776] [--of #K] [--bits 0..64]\n",
        Verb::Check => b"check FILE --json\n",
        Verb::Help => b"help [why|seen|timeline|bound|steady|leak|tune|check|help|version]\n",
        Verb::Version => b"version\n",
    }
}

// The word that must be there and is not, where one is not.
fn missing(verb: Verb, matches: &ArgMatches<'_>) -> &'static [u8]
    ensures { result.now ≡ missing verb (rows_of (found_of matches.now)) }
{
    match verb {
        Verb::Steady => if lacks(matches, "FILE") {
            b"FILE"
        } else {
            b"--observer"
        },
        Verb::Check => if lacks(matches, "FILE") {
            b"FILE"
        } else {
            b"--json"
        },
        Verb::Timeline => if lacks(matches, "FILE") {
            b"FILE"
        } else {
            b"STARTS"
        },
        _ => if lacks(matches, "FILE") {
            b"FILE"
        } else if lacks(matches, "STARTS") {
            b"STARTS"
        } else {
            b"--observer"
        },
    }
}

/// The line where no command is asked for.
pub(crate) fn no_command() -> &'static [u8]
    ensures { result.now ≡ no_command_line }
{
    b"lab: a command is missing; there are why, seen, timeline, bound, steady, leak, tune, check, help and version\n"
}

// The end of the line on a word that is no command.
fn commands_there() -> &'static [u8]
    ensures { result.now ≡ commands_there }
{
    b" is no command; there are why, seen, timeline, bound, steady, leak, tune, check, help and version\n"
}

/// The line on a word that is no command.
pub(crate) fn unknown_line(alloc: Global, command: &str) -> Result<Vec<u8>, AllocError>
    ensures { IfOk result (λ v. v.items ≡ unknown_line command.now) }
{
    let mut line = Vec::new(alloc);
    line.extend_from_slice(b"lab: ")?;
    line.extend_from_slice(shown(command))?;
    line.extend_from_slice(commands_there())?;
    Ok(line)
}

// The beginning of a line on the words of a command.
fn line_begin(alloc: Global, command: &str) -> Result<Vec<u8>, AllocError>
    ensures { IfOk result (λ v. v.items ≡ line_begin command.now) }
{
    let mut line = Vec::new(alloc);
    line.extend_from_slice(b"lab ")?;
    line.extend_from_slice(command.as_bytes())?;
    line.extend_from_slice(b": ")?;
    Ok(line)
}

/// The line on a word that can't stand where it stands, before others.
pub(crate) fn wrong_line(
    alloc: Global,
    verb: Verb,
    command: &str,
    word: &str,
    rest: &[String],
) -> Result<Vec<u8>, AllocError>
    ensures { IfOk result (λ v. v.items ≡ wrong_line verb command.now word.now (map string_bytes rest.now)) }
{
    let next = next_shown(word, rest);
    let mut line = line_begin(alloc, command)?;
    line.extend_from_slice(shown(word))?;
    line.extend_from_slice(gap(next))?;
    line.extend_from_slice(told(next))?;
    line.extend_from_slice(b" can't stand here; the form is ")?;
    line.extend_from_slice(form_told(verb))?;
    Ok(line)
}

/// The line where a word is missing.
pub(crate) fn missing_line(
    alloc: Global,
    verb: Verb,
    command: &str,
    matches: &ArgMatches<'_>,
) -> Result<Vec<u8>, AllocError>
    ensures { IfOk result (λ v. v.items ≡ missing_line verb command.now (rows_of (found_of matches.now))) }
{
    let mut line = line_begin(alloc, command)?;
    line.extend_from_slice(missing(verb, matches))?;
    line.extend_from_slice(b" is missing; the form is ")?;
    line.extend_from_slice(form_told(verb))?;
    Ok(line)
}
