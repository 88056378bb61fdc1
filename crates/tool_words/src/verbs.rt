//! The command words: the written form of each command, for `clap`, and what its matches ask for.

ghost use Rattle.std.specs.Prelude.{◌≡◌, IfOk, IfSome, option_map};
ghost use Rattle.clap.specs.Words.{app_of, found_of, rows_of};
ghost use Rattle.tool_words.specs.WordsAsked.{IsInRange, asked_of, blackbox_app, file_app, form_app, gen_app, given, meaning_app, recheck_app};
ghost use Rattle.tool_words.specs.WordsAsked.{verb_named};
ghost use Rattle.tool_words.specs.WordsRun.{run_app};

use crate::forms::{bare_form, observed_form, option, required_option, required_word};
use crate::readers::{budget, env, file, number, text};
use crate::words::{Command, MAX_SEED, MAX_SIZE, MAX_STEPS};
use clap::{Arg, ArgMatches, Command as Form};
use run_limits::MAX_CYCLES;
use std::alloc::{AllocError, Global};

/// The command words.
#[derive(Clone, Copy)]
pub(crate) enum Verb {
    Check,
    Infer,
    Compile,
    Run,
    Meaning,
    Audit,
    Gen,
    Cut,
    Blackbox,
    Certify,
    Recheck,
}

/// The command word that a text is.
pub(crate) fn verb_of(word: &str) -> Option<Verb>
    ensures { result ≡ verb_named word.now }
{
    match word {
        "check" => Some(Verb::Check),
        "infer" => Some(Verb::Infer),
        "compile" => Some(Verb::Compile),
        "run" => Some(Verb::Run),
        "meaning" => Some(Verb::Meaning),
        "audit" => Some(Verb::Audit),
        "gen" => Some(Verb::Gen),
        "cut" => Some(Verb::Cut),
        "blackbox" => Some(Verb::Blackbox),
        "certify" => Some(Verb::Certify),
        "recheck" => Some(Verb::Recheck),
        _ => None,
    }
}

/// `FILE`.
fn file_form<'a>(alloc: Global, name: &'a str) -> Result<Form<'a>, AllocError>
    ensures { IfOk result (λ f. app_of f ≡ file_app name.entry.now) }
{
    bare_form(alloc, name).arg(required_word(alloc, "FILE"))
}

/// `run FILE [STARTS] [--env E] [--budget T] [--observer L]`.
fn run_form<'a>(alloc: Global) -> Result<Form<'a>, AllocError>
    ensures { IfOk result (λ f. app_of f ≡ run_app) }
{
    bare_form(alloc, "run")
        .arg(required_word(alloc, "FILE"))?
        .arg(Arg::new(alloc, "STARTS"))?
        .arg(option(alloc, "env"))?
        .arg(option(alloc, "budget"))?
        .arg(option(alloc, "observer"))
}

/// `meaning FILE [STARTS] --steps N`.
fn meaning_form<'a>(alloc: Global) -> Result<Form<'a>, AllocError>
    ensures { IfOk result (λ f. app_of f ≡ meaning_app) }
{
    bare_form(alloc, "meaning")
        .arg(required_word(alloc, "FILE"))?
        .arg(Arg::new(alloc, "STARTS"))?
        .arg(required_option(alloc, "steps"))
}

/// `gen SIZE NUMBER`.
fn gen_form<'a>(alloc: Global) -> Result<Form<'a>, AllocError>
    ensures { IfOk result (λ f. app_of f ≡ gen_app) }
{
    bare_form(alloc, "gen")
        .arg(required_word(alloc, "SIZE"))?
        .arg(required_word(alloc, "NUMBER"))
}

/// `blackbox READY --first Q [--budget T]`.
fn blackbox_form<'a>(alloc: Global) -> Result<Form<'a>, AllocError>
    ensures { IfOk result (λ f. app_of f ≡ blackbox_app) }
{
    bare_form(alloc, "blackbox")
        .arg(required_word(alloc, "READY"))?
        .arg(required_option(alloc, "first"))?
        .arg(option(alloc, "budget"))
}

/// `recheck FILE CERTIFICATE`.
fn recheck_form<'a>(alloc: Global) -> Result<Form<'a>, AllocError>
    ensures { IfOk result (λ f. app_of f ≡ recheck_app) }
{
    bare_form(alloc, "recheck")
        .arg(required_word(alloc, "FILE"))?
        .arg(required_word(alloc, "CERTIFICATE"))
}

/// The form of the words that follow a command word.
pub(crate) fn form<'a>(alloc: Global, verb: Verb) -> Result<Form<'a>, AllocError>
    ensures { IfOk result (λ f. app_of f ≡ form_app verb) }
{
    match verb {
        Verb::Check => file_form(alloc, "check"),
        Verb::Infer => file_form(alloc, "infer"),
        Verb::Compile => file_form(alloc, "compile"),
        Verb::Run => run_form(alloc),
        Verb::Meaning => meaning_form(alloc),
        Verb::Audit => observed_form(alloc, "audit"),
        Verb::Gen => gen_form(alloc),
        Verb::Cut => observed_form(alloc, "cut"),
        Verb::Blackbox => blackbox_form(alloc),
        Verb::Certify => file_form(alloc, "certify"),
        Verb::Recheck => recheck_form(alloc),
    }
}

fn run<'a>(matches: &ArgMatches<'a>) -> Option<Command<'a>>
    ensures asked { option_map asked_of result ≡ given Verb.Run (rows_of (found_of matches.now)) }
    ensures range { IfSome result (λ c. IsInRange (asked_of c)) }
{
    let file = file(matches)?;
    let env = env(matches)?;
    let budget = budget(matches)?;
    let starts = text(matches, "STARTS");
    let observer = text(matches, "observer");
    Some(Command::Run {
        file,
        starts,
        env,
        budget,
        observer,
    })
}

fn meaning<'a>(matches: &ArgMatches<'a>) -> Option<Command<'a>>
    ensures asked { option_map asked_of result ≡ given Verb.Meaning (rows_of (found_of matches.now)) }
    ensures range { IfSome result (λ c. IsInRange (asked_of c)) }
{
    let file = file(matches)?;
    let starts = text(matches, "STARTS");
    let steps = number(matches, "steps", 0, MAX_STEPS)?;
    Some(Command::Meaning {
        file,
        starts,
        steps,
    })
}

fn audit<'a>(matches: &ArgMatches<'a>) -> Option<Command<'a>>
    ensures asked { option_map asked_of result ≡ given Verb.Audit (rows_of (found_of matches.now)) }
    ensures range { IfSome result (λ c. IsInRange (asked_of c)) }
{
    let file = file(matches)?;
    let starts = text(matches, "STARTS")?;
    let observer = text(matches, "observer")?;
    let env = env(matches)?;
    let budget = budget(matches)?;
    Some(Command::Audit {
        file,
        starts,
        observer,
        env,
        budget,
    })
}

fn cut<'a>(matches: &ArgMatches<'a>) -> Option<Command<'a>>
    ensures asked { option_map asked_of result ≡ given Verb.Cut (rows_of (found_of matches.now)) }
    ensures range { IfSome result (λ c. IsInRange (asked_of c)) }
{
    let file = file(matches)?;
    let starts = text(matches, "STARTS")?;
    let observer = text(matches, "observer")?;
    let env = env(matches)?;
    let budget = budget(matches)?;
    Some(Command::Cut {
        file,
        starts,
        observer,
        env,
        budget,
    })
}

fn made<'a>(matches: &ArgMatches<'a>) -> Option<Command<'a>>
    ensures asked { option_map asked_of result ≡ given Verb.Gen (rows_of (found_of matches.now)) }
    ensures range { IfSome result (λ c. IsInRange (asked_of c)) }
{
    let size = number(matches, "SIZE", 1, MAX_SIZE)?;
    let number = number(matches, "NUMBER", 0, MAX_SEED)?;
    Some(Command::Gen {
        size: size as u32,
        number: number as u32,
    })
}

fn blackbox<'a>(matches: &ArgMatches<'a>) -> Option<Command<'a>>
    ensures asked { option_map asked_of result ≡ given Verb.Blackbox (rows_of (found_of matches.now)) }
    ensures range { IfSome result (λ c. IsInRange (asked_of c)) }
{
    let ready = text(matches, "READY")?;
    let first = number(matches, "first", 1, MAX_CYCLES)?;
    let budget = budget(matches)?;
    Some(Command::Blackbox {
        ready,
        first,
        budget,
    })
}

fn recheck<'a>(matches: &ArgMatches<'a>) -> Option<Command<'a>>
    ensures asked { option_map asked_of result ≡ given Verb.Recheck (rows_of (found_of matches.now)) }
    ensures range { IfSome result (λ c. IsInRange (asked_of c)) }
{
    let file = file(matches)?;
    let certificate = text(matches, "CERTIFICATE")?;
    Some(Command::Recheck { file, certificate })
}

/// What the matches of a command ask for, if its numbers and names are of their form and in range.
pub(crate) fn command<'a>(verb: Verb, matches: &ArgMatches<'a>) -> Option<Command<'a>>
    ensures asked { option_map asked_of result ≡ given verb (rows_of (found_of matches.now)) }
    ensures range { IfSome result (λ c. IsInRange (asked_of c)) }
{
    match verb {
        Verb::Check => Some(Command::Check {
            file: file(matches)?,
        }),
        Verb::Infer => Some(Command::Infer {
            file: file(matches)?,
        }),
        Verb::Compile => Some(Command::Compile {
            file: file(matches)?,
        }),
        Verb::Run => run(matches),
        Verb::Meaning => meaning(matches),
        Verb::Audit => audit(matches),
        Verb::Gen => made(matches),
        Verb::Cut => cut(matches),
        Verb::Blackbox => blackbox(matches),
        Verb::Certify => Some(Command::Certify {
            file: file(matches)?,
        }),
        Verb::Recheck => recheck(matches),
    }
}
