//! What the matches of a command give to a name.

ghost use Rattle.std.specs.Prelude.{◌≡◌, ◌≤◌, IfSome, codes, option_map};
ghost use Rattle.clap.specs.Words.{first_of, found_of, rows_of};
ghost use Rattle.run_limits.specs.Cycles.{IsCycles};
ghost use Rattle.tool_words.specs.WordsValues.{budget_given, env_given, number_given};

use crate::values::{budget_of, env_of, number_of};
use crate::words::EnvName;
use clap::ArgMatches;

/// The text of a name, if the words give it one.
pub fn text<'a>(matches: &ArgMatches<'a>, name: &str) -> Option<&'a str>
    ensures { option_map (λ t. t.now) result ≡ first_of name.now (rows_of (found_of matches.now)) }
{
    matches.get_str(name)
}

/// The number of a name, if the words give it one within the bounds.
pub fn number(matches: &ArgMatches<'_>, name: &str, least: u64, most: u64) -> Option<u64>
    ensures value { result ≡ number_given name.now least most (rows_of (found_of matches.now)) }
    ensures range { IfSome result (λ n. (least ≤ n) × (n ≤ most)) }
{
    number_of(text(matches, name)?, least, most)
}

/// The environment that the words name, if they name one.
pub fn env(matches: &ArgMatches<'_>) -> Option<EnvName>
    ensures { result ≡ env_given (rows_of (found_of matches.now)) }
{
    env_of(text(matches, "env"))
}

/// The budget that the words give, in cycles, if it is one.
pub fn budget(matches: &ArgMatches<'_>) -> Option<u64>
    ensures value { result ≡ budget_given (rows_of (found_of matches.now)) }
    ensures range { IfSome result IsCycles }
{
    budget_of(text(matches, "budget"))
}

/// The file that the words name.
pub fn file<'a>(matches: &ArgMatches<'a>) -> Option<&'a str>
    ensures { option_map (λ t. t.now) result ≡ first_of (codes "FILE") (rows_of (found_of matches.now)) }
{
    text(matches, "FILE")
}
