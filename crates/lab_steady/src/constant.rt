//! From the word of `--constant` to the costs of operators that are asked about.

ghost use Rattle.std.specs.Prelude.{◌≡◌, Some, IfOk, IfErr, eqb, map, option_map};
ghost use Rattle.std.specs.List.{slice_split};
ghost use Rattle.tool_texts.specs.Ends.{IsStop};
ghost use Rattle.lab_steady.specs.Constant.{CostingStops, constant_of, costing_of, no_operator, with_name as name_added, with_names as names_added};

use std::alloc::{AllocError, Global};
use steady_code::costing::{Constant, Costing};
use tool_texts::stop::{Stop, no_memory};

/// No operator is named.
const NONE_NAMED: Constant = Constant {
    add: false,
    subtract: false,
    multiply: false,
    divide: false,
    remainder: false,
    compare: false,
};

/// An operator's name more.
fn with_name(word: &str, constant: Constant) -> Option<Constant>
    ensures { result ≡ name_added word.now constant }
{
    match word {
        "add" => Some(Constant {
            add: true,
            ..constant
        }),
        "subtract" => Some(Constant {
            subtract: true,
            ..constant
        }),
        "multiply" => Some(Constant {
            multiply: true,
            ..constant
        }),
        "divide" => Some(Constant {
            divide: true,
            ..constant
        }),
        "remainder" => Some(Constant {
            remainder: true,
            ..constant
        }),
        "compare" => Some(Constant {
            compare: true,
            ..constant
        }),
        _ => None,
    }
}

/// The names of some words more.
fn with_names(words: &[&str], constant: Constant) -> Option<Constant>
    ensures { result ≡ names_added (map (λ w. w.now) words.now) constant }
{
    let Some((word, words)) = words.split_first() else {
        return Some(constant);
    };
    let Some(constant) = with_name(word, constant) else {
        return None;
    };
    with_names(words, constant)
}

/// The parts of a word between its commas.
fn parts(alloc: Global, word: &str) -> Result<Vec<&str>, AllocError>
    ensures { IfOk result (λ v. map (λ w. w.now) v.items ≡ slice_split (λ b. eqb b 44) word.now) }
{
    word.split(',').collect(alloc)
}

/// The operators that a word names, or `None` where it names something else.
fn constant_named(alloc: Global, word: &str) -> Result<Option<Constant>, AllocError>
    ensures { IfOk result (λ c. c ≡ constant_of word.now) }
{
    if word == "none" {
        return Ok(Some(NONE_NAMED));
    }
    let parts = parts(alloc, word)?;
    Ok(with_names(parts.as_slice(), NONE_NAMED))
}

/// The lines on a word that names something else than operators.
fn no_operator() -> &'static [u8]
    ensures { result.now ≡ no_operator }
{
    b"constant: unknown name\nnames add subtract multiply divide remainder compare\n"
}

/// The costs of operators that are asked about.
///
/// # Errors
/// Stops with `Usage` and the operators that there are where the word names something else, or with `Memory`.
pub(crate) fn costing_named(alloc: Global, word: Option<&str>) -> Result<Costing, Stop>
    ensures ok { IfOk result (λ c. costing_of (option_map (λ s. s.now) word.entry) ≡ Some c) }
    ensures stop { IfErr result (IsStop (CostingStops (option_map (λ s. s.now) word.entry))) }
{
    let Some(word) = word else {
        return Ok(Costing::Table);
    };
    let Ok(constant) = constant_named(alloc, word) else {
        return Err(no_memory());
    };
    match constant {
        Some(constant) => Ok(Costing::Only(constant)),
        None => match Vec::from_slice(alloc, no_operator()) {
            Ok(lines) => Err(Stop::Misnamed(lines)),
            Err(_) => Err(no_memory()),
        },
    }
}
