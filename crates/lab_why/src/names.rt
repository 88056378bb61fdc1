//! What a word names in a program, and what is told where it names nothing.

ghost use Rattle.std.specs.Prelude.{◌≡◌, ◌++◌, IfOk, IfSome, OnOk, map, option_map};
ghost use Rattle.clap.specs.Lexer.{strip_byte};
ghost use Rattle.tool_words.specs.WordsValues.{number_in};
ghost use Rattle.lab_texts.specs.Names.{after_blanks};
ghost use Rattle.lab_why.specs.Origins.{no_name_text};
ghost use Rattle.lab_why.specs.Names.{IsThere, level_at, named, variable_at, variable_named};

use flow_path::step::Spot;
use label_lattice::name::Name;
use mit_syntax::program::Program;
use std::alloc::{AllocError, Global};
use tool_texts::lines::number;
use tool_words::values::number_of;

/// The greatest number that the mark of a mitigate may have.
const MAX_MARK: u64 = u32::MAX as u64;

// The variable with a number, if there is one.
fn variable_at(p: &Program, x: u32) -> Option<Spot>
    ensures value { result ≡ variable_at p.now x }
    ensures there { IfSome result (IsThere p.now) }
{
    if x < p.variables() {
        return Some(Spot::Variable(x));
    }
    None
}

// The level of the mitigate with a mark, if there is one.
fn level_at(p: &Program, mark: Option<u64>) -> Option<Spot>
    ensures value { result ≡ level_at p.now mark }
    ensures there { IfSome result (IsThere p.now) }
{
    match mark {
        Some(k) if k < u64::from(p.mitigates()) => Some(Spot::Level(k as u32, None)),
        _ => None,
    }
}

// The variable or the array with a name, if there is one.
fn variable_named(p: &Program, word: &str) -> Option<Spot>
    ensures value { result ≡ variable_named p.now word.now }
    ensures there { IfSome result (IsThere p.now) }
{
    p.laws();
    let name = Name::read(word.as_bytes())?;
    if let Some(x) = p.find_variable(&name) {
        return variable_at(p, x);
    }
    let (first, _) = p.find_array(&name)?;
    variable_at(p, first)
}

// What follows a first `#`.
fn after_hash(word: &str) -> Option<&str>
    ensures { option_map (λ s. s.now) result ≡ strip_byte 35 word.now }
{
    word.strip_prefix('#')
}

/// What a word names in a program: a variable or an array by its name, or by `#K` the level of the mitigate with the
/// mark K.
pub fn named(p: &Program, word: &str) -> Option<Spot>
    ensures value { result ≡ named p.now word.now }
    ensures there { IfSome result (IsThere p.now) }
{
    match after_hash(word) {
        Some(digits) => level_at(p, number_of(digits, 0, MAX_MARK)),
        None => variable_named(p, word),
    }
}

// Appends the names of the variables and arrays.
fn put_names(out: &mut Vec<u8>, p: &Program) -> Result<(), AllocError>
    ensures { OnOk result (out.new.items ≡ out.old.items ++ after_blanks (map (λ d. d.0) p.now.declarations)) }
{
    let declarations = p.declarations();
    for k in 0..declarations.len() {
        let (name, _) = declarations.declaration(k);
        out.extend_from_slice(b" ")?;
        out.extend_from_slice(name.bytes())?;
    }
    Ok(())
}

/// The lines on a word that names nothing.
///
/// # Errors
/// `AllocError` where memory runs out.
pub fn no_name(alloc: Global, p: &Program) -> Result<Vec<u8>, AllocError>
    ensures { IfOk result (λ v. v.items ≡ no_name_text p.now) }
{
    let mut lines = Vec::new(alloc);
    lines.extend_from_slice(b"of: unknown name\nnames")?;
    put_names(&mut lines, p)?;
    lines.extend_from_slice(b"\n")?;
    let mitigates = number(b"mitigates ", u64::from(p.mitigates()));
    lines.extend_from_slice(mitigates.bytes())?;
    Ok(lines)
}
