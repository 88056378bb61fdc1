//! What single words mean: numbers and the names of environments.

ghost use Rattle.std.specs.Prelude.{◌≡◌, ◌≤◌, IfSome, option_map};
ghost use Rattle.std.specs.Char.{is_ascii_digit};
ghost use Rattle.std.specs.List.{list_all};
ghost use Rattle.run_limits.specs.Cycles.{IsCycles};
ghost use Rattle.tool_words.specs.WordsValues.{budget_named, env_named, number_in};

use crate::words::{DEFAULT_BUDGET, EnvName};
use run_limits::{MAX_CYCLES, MAX_DIGITS};

fn is_digits(text: &str) -> bool
    ensures { result ≡ list_all is_ascii_digit text.now }
{
    text.as_bytes().iter().all(|b| b.is_ascii_digit())
}

/// The number that a text writes, if it has one to twenty digits and lies within the bounds.
pub fn number_of(text: &str, least: u64, most: u64) -> Option<u64>
    ensures value { result ≡ number_in least most text.now }
    ensures range { IfSome result (λ n. (least ≤ n) × (n ≤ most)) }
{
    if text.is_empty() || text.len() > MAX_DIGITS || !is_digits(text) {
        return None;
    }
    match text.parse::<u64>() {
        Ok(n) if least <= n && n <= most => Some(n),
        _ => None,
    }
}

/// The budget that an option gives, in cycles.
pub fn budget_of(text: Option<&str>) -> Option<u64>
    ensures value { result ≡ budget_named (option_map (λ t. t.now) text.entry) }
    ensures range { IfSome result IsCycles }
{
    match text {
        Some(text) => number_of(text, 1, MAX_CYCLES),
        None => Some(DEFAULT_BUDGET),
    }
}

/// The environment that an option names.
pub fn env_of(text: Option<&str>) -> Option<EnvName>
    ensures { result ≡ env_named (option_map (λ t. t.now) text.entry) }
{
    let Some(text) = text else {
        return Some(EnvName::Part);
    };
    match text {
        "flat" => Some(EnvName::Flat),
        "part" => Some(EnvName::Part),
        "part2" => Some(EnvName::Part2),
        _ => None,
    }
}
