//! The written form of each command, for `clap`.

ghost use Rattle.std.specs.Prelude.{◌≡◌, false, IfOk};
ghost use Rattle.clap.specs.Words.{app_of, rule_of};
ghost use Rattle.lab_words.specs.QuestionForms.{check_app, flag_rule, form_app, help_app, mark_rule, runs_app, shown_app};
ghost use Rattle.lab_words.specs.QuestionForms.{steady_app, timeline_app, tune_app, why_app};

use crate::verbs::Verb;
use clap::{Arg, ArgAction, Command as Form};
use std::alloc::{AllocError, Global};
use tool_words::forms::{bare_form, observed_form, option, required_option, required_word};

/// `why FILE [STARTS] [--of NAME] [--observer L] [--env E] [--machine M] [--budget T]`.
fn why_form<'a>(alloc: Global) -> Result<Form<'a>, AllocError>
    ensures { IfOk result (λ f. app_of f ≡ why_app) }
{
    bare_form(alloc, "why")
        .arg(required_word(alloc, "FILE"))?
        .arg(Arg::new(alloc, "STARTS"))?
        .arg(option(alloc, "of"))?
        .arg(option(alloc, "observer"))?
        .arg(option(alloc, "env"))?
        .arg(option(alloc, "machine"))?
        .arg(option(alloc, "budget"))
}

/// `timeline FILE STARTS [--env E] [--machine M] [--budget T] [--observer L] [--refused]`.
fn timeline_form<'a>(alloc: Global) -> Result<Form<'a>, AllocError>
    ensures { IfOk result (λ f. app_of f ≡ timeline_app) }
{
    bare_form(alloc, "timeline")
        .arg(required_word(alloc, "FILE"))?
        .arg(required_word(alloc, "STARTS"))?
        .arg(option(alloc, "env"))?
        .arg(option(alloc, "machine"))?
        .arg(option(alloc, "budget"))?
        .arg(option(alloc, "observer"))?
        .arg(flag(alloc, "refused"))
}

/// A flag `--name`.
pub(crate) fn flag<'a>(alloc: Global, name: &'a str) -> Arg<'a>
    ensures rule { rule_of result ≡ flag_rule name.entry.now }
    ensures local { result.global ≡ false }
{
    Arg::new(alloc, name).long(name).action(ArgAction::SetTrue)
}

/// `FILE STARTS --observer L [--env E] [--machine M] [--budget T]`.
fn runs_form<'a>(alloc: Global, name: &'a str) -> Result<Form<'a>, AllocError>
    ensures { IfOk result (λ f. app_of f ≡ runs_app name.entry.now) }
{
    observed_form(alloc, name)?.arg(option(alloc, "machine"))
}

/// `FILE STARTS --observer L [--env E] [--machine M] [--budget T] [--refused]`.
fn shown_form<'a>(alloc: Global, name: &'a str) -> Result<Form<'a>, AllocError>
    ensures { IfOk result (λ f. app_of f ≡ shown_app name.entry.now) }
{
    runs_form(alloc, name)?.arg(flag(alloc, "refused"))
}

/// `steady FILE --observer L [--parts P] [--constant NAMES] [--whole]`.
fn steady_form<'a>(alloc: Global) -> Result<Form<'a>, AllocError>
    ensures { IfOk result (λ f. app_of f ≡ steady_app) }
{
    bare_form(alloc, "steady")
        .arg(required_word(alloc, "FILE"))?
        .arg(required_option(alloc, "observer"))?
        .arg(option(alloc, "parts"))?
        .arg(option(alloc, "constant"))?
        .arg(flag(alloc, "whole"))
}

/// `--of #K`.
pub(crate) fn mark<'a>(alloc: Global) -> Arg<'a>
    ensures rule { rule_of result ≡ mark_rule }
    ensures local { result.global ≡ false }
{
    Arg::new(alloc, "mark").long("of")
}

/// `tune FILE STARTS --observer L [--env E] [--machine M] [--budget T] [--of #K] [--bits B]`.
fn tune_form<'a>(alloc: Global) -> Result<Form<'a>, AllocError>
    ensures { IfOk result (λ f. app_of f ≡ tune_app) }
{
    runs_form(alloc, "tune")?
        .arg(mark(alloc))?
        .arg(option(alloc, "bits"))
}

/// `check FILE --json`.
fn check_form<'a>(alloc: Global) -> Result<Form<'a>, AllocError>
    ensures { IfOk result (λ f. app_of f ≡ check_app) }
{
    bare_form(alloc, "check")
        .arg(required_word(alloc, "FILE"))?
        .arg(flag(alloc, "json"))
}

/// `help [COMMAND]`.
pub(crate) fn help_form<'a>(alloc: Global) -> Result<Form<'a>, AllocError>
    ensures { IfOk result (λ f. app_of f ≡ help_app) }
{
    bare_form(alloc, "help").arg(Arg::new(alloc, "COMMAND"))
}

/// The form of the words that follow a command word.
pub(crate) fn form<'a>(alloc: Global, verb: Verb) -> Result<Form<'a>, AllocError>
    ensures { IfOk result (λ f. app_of f ≡ form_app verb) }
{
    match verb {
        Verb::Why => why_form(alloc),
        Verb::Seen => shown_form(alloc, "seen"),
        Verb::Timeline => timeline_form(alloc),
        Verb::Bound => runs_form(alloc, "bound"),
        Verb::Steady => steady_form(alloc),
        Verb::Leak => shown_form(alloc, "leak"),
        Verb::Tune => tune_form(alloc),
        Verb::Check => check_form(alloc),
        Verb::Help => help_form(alloc),
        Verb::Version => Ok(bare_form(alloc, "version")),
    }
}
