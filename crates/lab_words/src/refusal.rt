//! What is told of words that ask for nothing.

ghost use Rattle.std.specs.Prelude.{◌≡◌, ◌<◌, IfOk, IfSome, None, Some, codes, is_some, length, map, string_bytes, take, true};
ghost use Rattle.clap.specs.Words.{first_of, found_of, matches_of, rows_of};
ghost use Rattle.lab_words.specs.QuestionAsked.{help_asked};
ghost use Rattle.lab_words.specs.QuestionForms.{form_app};
ghost use Rattle.lab_words.specs.Refusal.{IsFirst, IsLine, IsLineAfter, has_values, is_of_alone, is_taken, line_at, loosened, stands};

use crate::lines::{missing_line, no_command, unknown_line, wrong_line};
use crate::loose::loose_form;
use crate::readers::{bits, lacks, lacks_setting, machine, mark};
use crate::verbs::{Verb, verb_of};
use clap::ArgMatches;
use std::alloc::Global;
use text_base::pos::Memory;
use tool_words::forms::matched;
use tool_words::readers::{budget, text};
use tool_words::words::WordsFault;

// Whether a command follows `help`, or nothing.
fn has_command(matches: &ArgMatches<'_>) -> bool
    ensures { result ≡ is_some (help_asked (first_of (codes "COMMAND") (rows_of (found_of matches.now)))) }
{
    match text(matches, "COMMAND") {
        Some(word) => verb_of(word).is_some(),
        None => true,
    }
}

// Whether no name stands beside starts, or beside what tells of an audit.
fn is_of_alone(matches: &ArgMatches<'_>) -> bool
    ensures { result ≡ is_of_alone (rows_of (found_of matches.now)) }
{
    lacks(matches, "of")
        || (lacks(matches, "STARTS") && lacks(matches, "observer") && lacks_setting(matches))
}

// Whether the values of matches are of their form.
fn has_values(matches: &ArgMatches<'_>) -> bool
    ensures { result ≡ has_values (rows_of (found_of matches.now)) }
{
    machine(matches).is_some()
        && budget(matches).is_some()
        && mark(matches).is_some()
        && bits(matches).is_some()
        && has_command(matches)
        && is_of_alone(matches)
}

// The matches of words of which none must be there, if they can be taken.
fn taken<'a>(
    alloc: Global,
    verb: Verb,
    words: &'a [String],
) -> Result<Option<ArgMatches<'a>>, Memory>
    ensures taken { IfOk result (λ m. is_some m ≡ is_taken verb (map string_bytes words.entry.now)) }
    ensures rows { IfOk result (λ m. IfSome m (λ f. rows_of (found_of f) ≡ matches_of (loosened (form_app verb)) (map string_bytes words.entry.now))) }
{
    let form = loose_form(alloc, verb)?;
    match matched(form, words) {
        Ok(matches) => {
            if has_values(&matches) {
                Ok(Some(matches))
            } else {
                Ok(None)
            }
        }
        Err(WordsFault::Usage) => Ok(None),
        Err(WordsFault::Memory) => Err(Memory),
    }
}

// The words before a place, or all.
fn begun<'a>(words: &'a [String], end: usize) -> &'a [String]
    ensures { map string_bytes result.now ≡ take end (map string_bytes words.entry.now) }
{
    if end <= words.len() {
        &words[..end]
    } else {
        words
    }
}

// Whether the words before a place can be taken.
fn is_taken(alloc: Global, verb: Verb, words: &[String], end: usize) -> Result<bool, Memory>
    ensures { IfOk result (λ b. b ≡ is_taken verb (take end (map string_bytes words.now))) }
{
    let matches = taken(alloc, verb, begun(words, end))?;
    Ok(matches.is_some())
}

// Whether a word can stand where it stands.
fn stands(alloc: Global, verb: Verb, words: &[String], at: usize) -> Result<bool, Memory>
    requires { at < length words.now }
    ensures { IfOk result (λ b. b ≡ stands verb (map string_bytes words.now) at) }
{
    if is_taken(alloc, verb, words, at + 1)? {
        return Ok(true);
    }
    is_taken(alloc, verb, words, at + 2)
}

// The number of the first word that can't stand where it stands, if there is one.
fn first_wrong(alloc: Global, verb: Verb, words: &[String]) -> Result<Option<usize>, Memory>
    ensures { IfOk result (IsFirst verb (map string_bytes words.now)) }
{
    let mut at = 0;
    while at < words.len() {
        if !stands(alloc, verb, words, at)? {
            return Ok(Some(at));
        }
        at += 1;
    }
    Ok(None)
}

// The line on a word that can't stand where it stands.
fn line_at(
    alloc: Global,
    verb: Verb,
    command: &str,
    words: &[String],
    at: usize,
) -> Result<Vec<u8>, Memory>
    requires { at < length words.now }
    ensures { IfOk result (λ v. v.items ≡ line_at verb command.now (map string_bytes words.now) (Some at)) }
{
    let word = words[at].as_str();
    let rest = &words[at + 1..];
    Ok(wrong_line(alloc, verb, command, word, rest)?)
}

// The line on words of which one is missing.
fn line_without(
    alloc: Global,
    verb: Verb,
    command: &str,
    words: &[String],
) -> Result<Vec<u8>, Memory>
    requires { is_taken verb (map string_bytes words.now) ≡ true }
    ensures { IfOk result (λ v. v.items ≡ line_at verb command.now (map string_bytes words.now) None) }
{
    match taken(alloc, verb, words)? {
        Some(matches) => Ok(missing_line(alloc, verb, command, &matches)?),
        None => unreachable!(),
    }
}

// The line on the words after a command word.
fn line_after(alloc: Global, verb: Verb, command: &str, words: &[String]) -> Result<Vec<u8>, Memory>
    ensures { IfOk result (λ v. IsLineAfter (Some verb) command.now (map string_bytes words.now) v.items) }
{
    match first_wrong(alloc, verb, words)? {
        Some(at) => line_at(alloc, verb, command, words, at),
        None => line_without(alloc, verb, command, words),
    }
}

/// The line on words that ask for nothing: the first word that can't be taken and what may stand there, or what is
/// missing. Of words that ask for something it tells nothing of worth.
///
/// # Errors
/// `Memory` is want of memory.
pub fn line(alloc: Global, words: &[String]) -> Result<Vec<u8>, Memory>
    ensures { IfOk result (λ v. IsLine (map string_bytes words.now) v.items) }
{
    let Some((command, rest)) = words.split_first() else {
        let mut line = Vec::new(alloc);
        line.extend_from_slice(no_command())?;
        return Ok(line);
    };
    match verb_of(command.as_str()) {
        Some(verb) => line_after(alloc, verb, command.as_str(), rest),
        None => Ok(unknown_line(alloc, command.as_str())?),
    }
}
