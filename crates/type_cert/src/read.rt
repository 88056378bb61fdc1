//! How the lines of a certificate are read.

ghost use Rattle.std.specs.Prelude.{◌≡◌, ◌<◌, ◌≤◌, ◌++◌, ℕ, List, [], Option, length, slice_index, true, false, MatchOption};
ghost use Rattle.label_lattice.specs.declared.label.Label.{Label};
ghost use Rattle.label_lattice.specs.Names.{is_name_byte};
ghost use Rattle.mit_syntax.specs.Lexemes.{StopsAt};
ghost use Rattle.type_cert.specs.declared.line.Line.{Line};
ghost use Rattle.type_cert.specs.Text.{head_text};
ghost use Rattle.type_cert.specs.Demands.{rule_of};
ghost use Rattle.type_cert.specs.Reading.{ReadsLabel, ReadsLevel, ReadsLine, ReadsVariable};

use crate::line::Line;
use crate::place::Act;
use itoa::Buffer;
use label_lattice::label::Label;
use label_lattice::lattice::Lattice;
use label_lattice::name::Name;
use timing_types::rule::Rule;

/// What follows a word at the front of a text.
pub(crate) fn after<'a>(text: &'a [u8], word: &[u8]) -> Option<&'a [u8]>
    ensures { MatchOption result ((q : List ℕ) → text.now ≡ word.now ++ q → ⊥) (λ rest. text.now ≡ word.now ++ rest.now) }
{
    if text.starts_with(word) {
        return Some(&text[word.len()..]);
    }
    None
}

fn is_name_byte(b: u8) -> bool
    ensures { result ≡ is_name_byte b }
{
    b.is_ascii_alphabetic() || b.is_ascii_digit() || b == b'_'
}

/// How many bytes of names are at the front.
fn name_len(text: &[u8]) -> usize
    ensures within { result ≤ length text.now }
    ensures before { (k : ℕ) → k < result → is_name_byte (slice_index text.now k) ≡ true }
    ensures stops { result < length text.now → is_name_byte (slice_index text.now result) ≡ false }
{
    for (i, b) in text.iter().enumerate() {
        if !is_name_byte(*b) {
            return i;
        }
    }
    text.len()
}

/// The label whose name stands at the front of a text, and what follows it.
fn name<'a>(text: &'a [u8], order: &Lattice) -> Option<(Label, &'a [u8])>
    ensures { MatchOption result ((l : Label) (q : List ℕ) → ReadsLabel order.now [] text.now l q → ⊥) (λ r. ReadsLabel order.now [] text.now r.0 r.1.now) }
{
    order.laws();
    let n = name_len(text);
    let name = Name::read(&text[..n])?;
    let label = order.find(&name)?;
    Some((label, &text[n..]))
}

/// The label whose name stands behind a word at the front of a text, and what follows it.
fn label<'a>(text: &'a [u8], word: &[u8], order: &Lattice) -> Option<(Label, &'a [u8])>
    ensures { MatchOption result ((l : Label) (q : List ℕ) → ReadsLabel order.now word.now text.now l q → ⊥)
        (λ r. ReadsLabel order.now word.now text.now r.0 r.1.now) }
{
    let rest = after(text, word)?;
    let (label, rest) = name(rest, order)?;
    Some((label, rest))
}

/// The level in a command's line, and what follows it.
fn level<'a>(text: &'a [u8], order: &Lattice, act: Act) -> Option<(Option<Label>, &'a [u8])>
    requires { StopsAt is_name_byte text.now }
    ensures { MatchOption result ((v : Option Label) (q : List ℕ) → ReadsLevel order.now act text.now v q → ⊥)
        (λ r. ReadsLevel order.now act text.now r.0 r.1.now) }
{
    match act {
        Act::Mitigate { .. } => match label(text, b" level ", order) {
            Some((level, rest)) => Some((Some(level), rest)),
            None => None,
        },
        Act::Skip | Act::Assign { .. } | Act::Sleep { .. } | Act::If { .. } | Act::While { .. } =>
            Some((None, text)),
    }
}

/// The rule that types a command.
fn rule_of(act: Act) -> Rule
    ensures { result ≡ rule_of act }
{
    match act {
        Act::Skip => Rule::Skip,
        Act::Assign { .. } => Rule::Asgn,
        Act::Sleep { .. } => Rule::Sleep,
        Act::If { .. } => Rule::If,
        Act::While { .. } => Rule::While,
        Act::Mitigate { .. } => Rule::Mtg,
    }
}

/// What follows the number of a command and its rule.
fn head<'a>(text: &'a [u8], number: usize, rule: Rule) -> Option<&'a [u8]>
    ensures { MatchOption result ((q : List ℕ) → text.now ≡ head_text number rule ++ q → ⊥) (λ rest. text.now ≡ head_text number rule ++ rest.now) }
{
    let mut buffer = Buffer::new();
    let rest = after(text, buffer.format(number).as_bytes())?;
    let rest = after(rest, b" ")?;
    let rest = after(rest, rule.name())?;
    Some(rest)
}

/// The line of the command with a number, and what follows it.
pub(crate) fn line<'a>(
    text: &'a [u8],
    order: &Lattice,
    number: usize,
    act: Act,
) -> Option<(Line, &'a [u8])>
    ensures { MatchOption result ((x : Line) (q : List ℕ) → ReadsLine order.now number act text.now x q → ⊥)
        (λ r. ReadsLine order.now number act text.now r.0 r.1.now) }
{
    order.laws();
    let rule = rule_of(act);
    let rest = head(text, number, rule)?;
    let (pc, rest) = label(rest, b" pc ", order)?;
    let (start, rest) = label(rest, b" start ", order)?;
    let (read, rest) = label(rest, b" er ", order)?;
    let (write, rest) = label(rest, b" ew ", order)?;
    let (end, rest) = label(rest, b" end ", order)?;
    let (level, rest) = level(rest, order, act)?;
    let rest = after(rest, b"\n")?;
    let line = Line {
        rule,
        pc,
        start,
        read,
        write,
        end,
        level,
    };
    Some((line, rest))
}

/// The label in the line of a declaration, and what follows the line.
pub(crate) fn variable<'a>(text: &'a [u8], order: &Lattice, name: Name) -> Option<(Label, &'a [u8])>
    ensures { MatchOption result ((l : Label) (q : List ℕ) → ReadsVariable order.now name text.now l q → ⊥)
        (λ r. ReadsVariable order.now name text.now r.0 r.1.now) }
{
    order.laws();
    let rest = after(text, b"var ")?;
    let rest = after(rest, name.bytes())?;
    let (label, rest) = label(rest, b" ", order)?;
    let rest = after(rest, b"\n")?;
    Some((label, rest))
}
