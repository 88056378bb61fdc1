//! The written form of each command with no word that must be there, for `clap`.

ghost use Rattle.std.specs.Prelude.{◌≡◌, IfOk};
ghost use Rattle.clap.specs.Words.{app_of};
ghost use Rattle.tool_words.specs.WordsForms.{observed_app};
ghost use Rattle.lab_words.specs.QuestionForms.{check_app, form_app, runs_app, shown_app, steady_app, timeline_app, tune_app, why_app};
ghost use Rattle.lab_words.specs.Refusal.{loosened};

use crate::forms::{flag, help_form, mark};
use crate::verbs::Verb;
use clap::{Arg, Command as Form};
use std::alloc::{AllocError, Global};
use tool_words::forms::{bare_form, option};

/// `why [FILE] [STARTS] [--of NAME] [--observer L] [--env E] [--machine M] [--budget T]`.
fn why_form<'a>(alloc: Global) -> Result<Form<'a>, AllocError>
    ensures { IfOk result (λ f. app_of f ≡ loosened why_app) }
{
    bare_form(alloc, "why")
        .arg(Arg::new(alloc, "FILE"))?
        .arg(Arg::new(alloc, "STARTS"))?
        .arg(option(alloc, "of"))?
        .arg(option(alloc, "observer"))?
        .arg(option(alloc, "env"))?
        .arg(option(alloc, "machine"))?
        .arg(option(alloc, "budget"))
}

/// `[FILE] [STARTS] [--observer L] [--env E] [--budget T]`.
fn observed_form<'a>(alloc: Global, name: &'a str) -> Result<Form<'a>, AllocError>
    ensures { IfOk result (λ f. app_of f ≡ loosened (observed_app name.entry.now)) }
{
    bare_form(alloc, name)
        .arg(Arg::new(alloc, "FILE"))?
        .arg(Arg::new(alloc, "STARTS"))?
        .arg(option(alloc, "observer"))?
        .arg(option(alloc, "env"))?
        .arg(option(alloc, "budget"))
}

/// `[FILE] [STARTS] [--observer L] [--env E] [--machine M] [--budget T]`.
fn runs_form<'a>(alloc: Global, name: &'a str) -> Result<Form<'a>, AllocError>
    ensures { IfOk result (λ f. app_of f ≡ loosened (runs_app name.entry.now)) }
{
    observed_form(alloc, name)?.arg(option(alloc, "machine"))
}

/// `[FILE] [STARTS] [--observer L] [--env E] [--machine M] [--budget T] [--refused]`.
fn shown_form<'a>(alloc: Global, name: &'a str) -> Result<Form<'a>, AllocError>
    ensures { IfOk result (λ f. app_of f ≡ loosened (shown_app name.entry.now)) }
{
    runs_form(alloc, name)?.arg(flag(alloc, "refused"))
}

/// `timeline [FILE] [STARTS] [--env E] [--machine M] [--budget T] [--observer L] [--refused]`.
fn timeline_form<'a>(alloc: Global) -> Result<Form<'a>, AllocError>
    ensures { IfOk result (λ f. app_of f ≡ loosened timeline_app) }
{
    bare_form(alloc, "timeline")
        .arg(Arg::new(alloc, "FILE"))?
        .arg(Arg::new(alloc, "STARTS"))?
        .arg(option(alloc, "env"))?
        .arg(option(alloc, "machine"))?
        .arg(option(alloc, "budget"))?
        .arg(option(alloc, "observer"))?
        .arg(flag(alloc, "refused"))
}

/// `steady [FILE] [--observer L] [--parts P] [--constant NAMES] [--whole]`.
fn steady_form<'a>(alloc: Global) -> Result<Form<'a>, AllocError>
    ensures { IfOk result (λ f. app_of f ≡ loosened steady_app) }
{
    bare_form(alloc, "steady")
        .arg(Arg::new(alloc, "FILE"))?
        .arg(option(alloc, "observer"))?
        .arg(option(alloc, "parts"))?
        .arg(option(alloc, "constant"))?
        .arg(flag(alloc, "whole"))
}

/// `tune [FILE] [STARTS] [--observer L] [--env E] [--machine M] [--budget T] [--of #K] [--bits B]`.
fn tune_form<'a>(alloc: Global) -> Result<Form<'a>, AllocError>
    ensures { IfOk result (λ f. app_of f ≡ loosened tune_app) }
{
    runs_form(alloc, "tune")?
        .arg(mark(alloc))?
        .arg(option(alloc, "bits"))
}

/// `check [FILE] [--json]`.
fn check_form<'a>(alloc: Global) -> Result<Form<'a>, AllocError>
    ensures { IfOk result (λ f. app_of f ≡ loosened check_app) }
{
    bare_form(alloc, "check")
        .arg(Arg::new(alloc, "FILE"))?
        .arg(flag(alloc, "json"))
}

/// The form of the words that follow a command word, none of which must be there.
pub(crate) fn loose_form<'a>(alloc: Global, verb: Verb) -> Result<Form<'a>, AllocError>
    ensures { IfOk result (λ f. app_of f ≡ loosened (form_app verb)) }
{
    match verb {
        Verb::Why => why_form(alloc),
        Verb::Seen => shown_form(alloc, "seen"),
        Verb::Timeline => timeline_form(alloc),
        Verb::Bound => runs_form(alloc, "bound"),
        Verb::Steady => steady_form(alloc),
        Verb::Leak => shown_form(alloc, "leak"),
        Verb::Tune => tune_form(alloc),
        Verb::Check => check_form(alloc),
        Verb::Help => help_form(alloc),
        Verb::Version => Ok(bare_form(alloc, "version")),
    }
}
