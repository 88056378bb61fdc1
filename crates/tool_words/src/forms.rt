//! The pieces of the written forms of commands, for `clap`.

ghost use Rattle.std.specs.Prelude.{false, true, ◌≡◌, IfOk, IsErrOf, map, string_bytes};
ghost use Rattle.clap.specs.Words.{app_of, fault_of, found_of, is_simple_and_free, matches_of, new_app, rows_of, rule_of};
ghost use Rattle.clap.specs.Walk.{is_empty};
ghost use Rattle.tool_words.specs.WordsForms.{bare, observed_app, option_rule, required_option_rule, required_word_rule};

use crate::words::WordsFault;
use clap::error::ErrorKind;
use clap::{Arg, ArgMatches, Command as Form};
use std::alloc::{AllocError, Global};

/// A positional word that must be there.
pub fn required_word<'a>(alloc: Global, name: &'a str) -> Arg<'a>
    ensures rule { rule_of result ≡ required_word_rule name.entry.now }
    ensures local { result.global ≡ false }
{
    Arg::new(alloc, name).required(true)
}

/// An option `--name value`.
pub fn option<'a>(alloc: Global, name: &'a str) -> Arg<'a>
    ensures rule { rule_of result ≡ option_rule name.entry.now }
    ensures local { result.global ≡ false }
{
    Arg::new(alloc, name).long(name)
}

/// An option `--name value` that must be there.
pub fn required_option<'a>(alloc: Global, name: &'a str) -> Arg<'a>
    ensures rule { rule_of result ≡ required_option_rule name.entry.now }
    ensures local { result.global ≡ false }
{
    Arg::new(alloc, name).long(name).required(true)
}

/// A command without help or version, whose words do not hold its name.
pub fn bare_form<'a>(alloc: Global, name: &'a str) -> Form<'a>
    ensures { app_of result ≡ bare (new_app name.entry.now) }
{
    Form::new(alloc, name)
        .no_binary_name(true)
        .disable_help_flag(true)
        .disable_version_flag(true)
}

/// What is observed of runs: `FILE STARTS --observer L [--env E] [--budget T]`.
pub fn observed_form<'a>(alloc: Global, name: &'a str) -> Result<Form<'a>, AllocError>
    ensures { IfOk result (λ f. app_of f ≡ observed_app name.entry.now) }
{
    bare_form(alloc, name)
        .arg(required_word(alloc, "FILE"))?
        .arg(required_word(alloc, "STARTS"))?
        .arg(required_option(alloc, "observer"))?
        .arg(option(alloc, "env"))?
        .arg(option(alloc, "budget"))
}

/// The values that words give to a form's names.
pub fn matched<'a>(form: Form<'a>, words: &'a [String]) -> Result<ArgMatches<'a>, WordsFault>
    requires { is_simple_and_free (app_of form) ≡ true }
    ensures taken { IfOk result (λ _. is_empty (fault_of (app_of form.entry) (map string_bytes words.entry.now)) ≡ true) }
    ensures rows { IfOk result (λ m. rows_of (found_of m) ≡ matches_of (app_of form.entry) (map string_bytes words.entry.now)) }
    ensures usage { IsErrOf result WordsFault.Usage → is_empty (fault_of (app_of form.entry) (map string_bytes words.entry.now)) ≡ false }
{
    match form.try_get_matches_from(words) {
        Ok(matches) => Ok(matches),
        Err(error) => {
            if error.kind() == ErrorKind::OutOfMemory {
                return Err(WordsFault::Memory);
            }
            Err(WordsFault::Usage)
        }
    }
}
