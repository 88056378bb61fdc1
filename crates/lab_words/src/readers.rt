//! What the matches of each command ask for.

ghost use Rattle.std.specs.Prelude.{◌≡◌, IfSome, codes, option_map};
ghost use Rattle.clap.specs.Lexer.{strip_byte};
ghost use Rattle.clap.specs.Words.{first_of, found_of, rows_of};
ghost use Rattle.lab_words.specs.QuestionAsked.{IsInRange, bits_given, bits_named, flag_given, given, lacks, lacks_setting, machine_given, mark_given};
ghost use Rattle.lab_words.specs.QuestionAsked.{mark_named, runs_given, why_asked, why_audit, why_starts_asked};
ghost use Rattle.lab_words.specs.QuestionViews.{asked_of, machine_of};

use crate::machine::Machine;
use crate::question::Question;
use crate::verbs::{Verb, verb_of};
use clap::ArgMatches;
use tool_words::readers::{budget, env, file, text};
use tool_words::values::number_of;

/// The greatest number that the mark of a mitigate may have.
const MAX_MARK: u64 = u32::MAX as u64;

/// The greatest number of bits.
const MAX_BITS: u64 = 64;

/// Whether the words lack a word or an option.
pub(crate) fn lacks(matches: &ArgMatches<'_>, name: &str) -> bool
    ensures { result ≡ lacks name.now (rows_of (found_of matches.now)) }
{
    text(matches, name).is_none()
}

/// Whether the words tell of no machine, and of no budget.
pub(crate) fn lacks_setting(matches: &ArgMatches<'_>) -> bool
    ensures { result ≡ lacks_setting (rows_of (found_of matches.now)) }
{
    lacks(matches, "env") && lacks(matches, "machine") && lacks(matches, "budget")
}

// `why` of a program alone.
fn why_program<'a>(matches: &ArgMatches<'a>, of: Option<&'a str>) -> Option<Question<'a>>
    ensures asked { option_map asked_of result ≡ why_asked (first_of (codes "FILE") (rows_of (found_of matches.now))) (option_map (λ n. n.now) of.entry)
        (lacks_setting (rows_of (found_of matches.now))) }
    ensures range { IfSome result (λ q. IsInRange (asked_of q)) }
{
    let file = file(matches)?;
    if lacks_setting(matches) {
        return Some(Question::Why { file, of });
    }
    None
}

// `why` of starts alone.
fn why_starts<'a>(matches: &ArgMatches<'a>, starts: &'a str) -> Option<Question<'a>>
    ensures asked { option_map asked_of result ≡ why_starts_asked (first_of (codes "FILE") (rows_of (found_of matches.now))) starts.entry.now
        (lacks_setting (rows_of (found_of matches.now))) }
    ensures range { IfSome result (λ q. IsInRange (asked_of q)) }
{
    let file = file(matches)?;
    if lacks_setting(matches) {
        return Some(Question::WhyStarts { file, starts });
    }
    None
}

// `why` of an audit.
fn why_audit<'a>(matches: &ArgMatches<'a>) -> Option<Question<'a>>
    ensures asked { option_map asked_of result ≡ runs_given why_audit (rows_of (found_of matches.now)) }
    ensures range { IfSome result (λ q. IsInRange (asked_of q)) }
{
    let file = file(matches)?;
    let starts = text(matches, "STARTS")?;
    let observer = text(matches, "observer")?;
    let machine = machine(matches)?;
    let budget = budget(matches)?;
    Some(Question::WhyAudit {
        file,
        starts,
        observer,
        machine,
        budget,
    })
}

fn why<'a>(matches: &ArgMatches<'a>) -> Option<Question<'a>>
    ensures asked { option_map asked_of result ≡ given Verb.Why (rows_of (found_of matches.now)) }
    ensures range { IfSome result (λ q. IsInRange (asked_of q)) }
{
    let of = text(matches, "of");
    match text(matches, "STARTS") {
        None => match text(matches, "observer") {
            None => why_program(matches, of),
            Some(_) => None,
        },
        Some(starts) => match of {
            None => match text(matches, "observer") {
                None => why_starts(matches, starts),
                Some(_) => why_audit(matches),
            },
            Some(_) => None,
        },
    }
}

/// The machine that the words name, if they name one and no more.
pub(crate) fn machine<'a>(matches: &ArgMatches<'a>) -> Option<Machine<'a>>
    ensures { option_map machine_of result ≡ machine_given (rows_of (found_of matches.now)) }
{
    match text(matches, "machine") {
        Some(file) => match text(matches, "env") {
            Some(_) => None,
            None => Some(Machine::Described(file)),
        },
        None => match env(matches) {
            Some(env) => Some(Machine::Named(env)),
            None => None,
        },
    }
}

fn seen<'a>(matches: &ArgMatches<'a>) -> Option<Question<'a>>
    ensures asked { option_map asked_of result ≡ given Verb.Seen (rows_of (found_of matches.now)) }
    ensures range { IfSome result (λ q. IsInRange (asked_of q)) }
{
    let file = file(matches)?;
    let starts = text(matches, "STARTS")?;
    let observer = text(matches, "observer")?;
    let machine = machine(matches)?;
    let budget = budget(matches)?;
    let refused = flag(matches, "refused");
    Some(Question::Seen {
        file,
        starts,
        observer,
        machine,
        budget,
        refused,
    })
}

fn timeline<'a>(matches: &ArgMatches<'a>) -> Option<Question<'a>>
    ensures asked { option_map asked_of result ≡ given Verb.Timeline (rows_of (found_of matches.now)) }
    ensures range { IfSome result (λ q. IsInRange (asked_of q)) }
{
    let file = file(matches)?;
    let starts = text(matches, "STARTS")?;
    let machine = machine(matches)?;
    let budget = budget(matches)?;
    let observer = text(matches, "observer");
    let refused = flag(matches, "refused");
    Some(Question::Timeline {
        file,
        starts,
        observer,
        machine,
        budget,
        refused,
    })
}

fn bound<'a>(matches: &ArgMatches<'a>) -> Option<Question<'a>>
    ensures asked { option_map asked_of result ≡ given Verb.Bound (rows_of (found_of matches.now)) }
    ensures range { IfSome result (λ q. IsInRange (asked_of q)) }
{
    let file = file(matches)?;
    let starts = text(matches, "STARTS")?;
    let observer = text(matches, "observer")?;
    let machine = machine(matches)?;
    let budget = budget(matches)?;
    Some(Question::Bound {
        file,
        starts,
        observer,
        machine,
        budget,
    })
}

// Whether a flag is among the words.
fn flag(matches: &ArgMatches<'_>, name: &str) -> bool
    ensures { result ≡ flag_given name.now (rows_of (found_of matches.now)) }
{
    match text(matches, name) {
        Some(word) => word == "true",
        None => false,
    }
}

fn steady<'a>(matches: &ArgMatches<'a>) -> Option<Question<'a>>
    ensures asked { option_map asked_of result ≡ given Verb.Steady (rows_of (found_of matches.now)) }
    ensures range { IfSome result (λ q. IsInRange (asked_of q)) }
{
    let file = file(matches)?;
    let observer = text(matches, "observer")?;
    let parts = text(matches, "parts");
    let constant = text(matches, "constant");
    let whole = flag(matches, "whole");
    Some(Question::Steady {
        file,
        observer,
        parts,
        constant,
        whole,
    })
}

fn leak<'a>(matches: &ArgMatches<'a>) -> Option<Question<'a>>
    ensures asked { option_map asked_of result ≡ given Verb.Leak (rows_of (found_of matches.now)) }
    ensures range { IfSome result (λ q. IsInRange (asked_of q)) }
{
    let file = file(matches)?;
    let starts = text(matches, "STARTS")?;
    let observer = text(matches, "observer")?;
    let machine = machine(matches)?;
    let budget = budget(matches)?;
    let refused = flag(matches, "refused");
    Some(Question::Leak {
        file,
        starts,
        observer,
        machine,
        budget,
        refused,
    })
}

// What follows a first `#`.
fn after_hash(word: &str) -> Option<&str>
    ensures { option_map (λ s. s.now) result ≡ strip_byte 35 word.now }
{
    word.strip_prefix('#')
}

// The mark that a word names, if it names one.
fn mark_of(word: Option<&str>) -> Option<u32>
    ensures { result ≡ mark_named (option_map (λ w. w.now) word.entry) }
{
    let Some(word) = word else {
        return Some(0);
    };
    let mark = number_of(after_hash(word)?, 0, MAX_MARK)?;
    Some(mark as u32)
}

/// The mark of the mitigate that the words name, if they name one.
pub(crate) fn mark(matches: &ArgMatches<'_>) -> Option<u32>
    ensures { result ≡ mark_given (rows_of (found_of matches.now)) }
{
    mark_of(text(matches, "mark"))
}

// The bits that a word names, where there is one; none where the word names none.
fn bits_of(word: Option<&str>) -> Option<Option<u32>>
    ensures { result ≡ bits_named (option_map (λ w. w.now) word.entry) }
{
    let Some(word) = word else {
        return Some(None);
    };
    let bits = number_of(word, 0, MAX_BITS)?;
    Some(Some(bits as u32))
}

/// The bits that the words name, if they name any; none where what they name is none.
pub(crate) fn bits(matches: &ArgMatches<'_>) -> Option<Option<u32>>
    ensures { result ≡ bits_given (rows_of (found_of matches.now)) }
{
    bits_of(text(matches, "bits"))
}

fn tune<'a>(matches: &ArgMatches<'a>) -> Option<Question<'a>>
    ensures asked { option_map asked_of result ≡ given Verb.Tune (rows_of (found_of matches.now)) }
    ensures range { IfSome result (λ q. IsInRange (asked_of q)) }
{
    let file = file(matches)?;
    let starts = text(matches, "STARTS")?;
    let observer = text(matches, "observer")?;
    let machine = machine(matches)?;
    let budget = budget(matches)?;
    let mark = mark(matches)?;
    let bits = bits(matches)?;
    Some(Question::Tune {
        file,
        starts,
        observer,
        machine,
        budget,
        mark,
        bits,
    })
}

fn check<'a>(matches: &ArgMatches<'a>) -> Option<Question<'a>>
    ensures asked { option_map asked_of result ≡ given Verb.Check (rows_of (found_of matches.now)) }
    ensures range { IfSome result (λ q. IsInRange (asked_of q)) }
{
    let file = file(matches)?;
    if flag(matches, "json") {
        return Some(Question::Check { file });
    }
    None
}

fn help<'a>(matches: &ArgMatches<'a>) -> Option<Question<'a>>
    ensures asked { option_map asked_of result ≡ given Verb.Help (rows_of (found_of matches.now)) }
    ensures range { IfSome result (λ q. IsInRange (asked_of q)) }
{
    let Some(word) = text(matches, "COMMAND") else {
        return Some(Question::Help { command: None });
    };
    let verb = verb_of(word)?;
    Some(Question::Help {
        command: Some(verb),
    })
}

/// What the matches of a command ask for, if its numbers and names are of their form and in range.
pub(crate) fn question<'a>(verb: Verb, matches: &ArgMatches<'a>) -> Option<Question<'a>>
    ensures asked { option_map asked_of result ≡ given verb (rows_of (found_of matches.now)) }
    ensures range { IfSome result (λ q. IsInRange (asked_of q)) }
{
    match verb {
        Verb::Why => why(matches),
        Verb::Seen => seen(matches),
        Verb::Timeline => timeline(matches),
        Verb::Bound => bound(matches),
        Verb::Steady => steady(matches),
        Verb::Leak => leak(matches),
        Verb::Tune => tune(matches),
        Verb::Check => check(matches),
        Verb::Help => help(matches),
        Verb::Version => Some(Question::Version),
    }
}
