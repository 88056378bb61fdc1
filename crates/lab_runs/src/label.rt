//! From the name of a label to the label.

ghost use Rattle.std.specs.Prelude.{◌≡◌, ◌++◌, Some, IfOk, IfErr, MatchOption, OnOk, option_map};
ghost use Rattle.tool_texts.specs.Ends.{IsStop};
ghost use Rattle.tool_stages.specs.Stages.{IsUnknown, Observes};
ghost use Rattle.lab_texts.specs.Names.{after_blanks};
ghost use Rattle.lab_runs.specs.Labels.{UnnamedStops, no_label_text, observer_option};

use label_lattice::label::Label;
use label_lattice::lattice::Lattice;
use label_lattice::name::Name;
use std::alloc::{AllocError, Global};
use tool_texts::stop::{Stop, no_memory};

// Appends the names of the labels.
fn put_names(out: &mut Vec<u8>, order: &Lattice) -> Result<(), AllocError>
    ensures { OnOk result (out.new.items ≡ out.old.items ++ after_blanks order.now.names) }
{
    order.laws();
    for number in 0..order.size() {
        out.extend_from_slice(b" ")?;
        out.extend_from_slice(order.name(Label::new(number as u8)).bytes())?;
    }
    Ok(())
}

// The lines on an option whose word is the name of no label.
fn no_label(alloc: Global, order: &Lattice, option: &[u8]) -> Result<Vec<u8>, AllocError>
    ensures { IfOk result (λ v. v.items ≡ no_label_text option.now order.now) }
{
    let mut lines = Vec::new(alloc);
    lines.extend_from_slice(option)?;
    lines.extend_from_slice(b": unknown name\nlabels")?;
    put_names(&mut lines, order)?;
    lines.extend_from_slice(b"\n")?;
    Ok(lines)
}

// The label that a word names, where there is one.
fn label_of(order: &Lattice, word: &str) -> Option<Label>
    ensures { MatchOption result (IsUnknown order.now (Some word.now)) (λ l. Observes order.now (Some word.now) (Some l)) }
{
    order.laws();
    let Some(name) = Name::read(word.as_bytes()) else {
        return None;
    };
    order.find(&name)
}

/// The label that the word behind an option names.
///
/// # Errors
/// Stops with `Usage`, the option and the labels that there are where no label has the name, or with `Memory`.
pub fn label_named(alloc: Global, order: &Lattice, option: &[u8], word: &str) -> Result<Label, Stop>
    ensures ok { IfOk result (λ l. Observes order.now (Some word.now) (Some l)) }
    ensures stop { IfErr result (IsStop (UnnamedStops option.now order.now (Some word.now))) }
{
    match label_of(order, word) {
        Some(label) => Ok(label),
        None => match no_label(alloc, order, option) {
            Ok(lines) => Err(Stop::Misnamed(lines)),
            Err(_) => Err(no_memory()),
        },
    }
}

/// The label that an observer's name names, where there is one.
///
/// # Errors
/// Stops with `Usage` and the labels that there are where no label has the name, or with `Memory`.
pub fn observer_named(
    alloc: Global,
    order: &Lattice,
    name: Option<&str>,
) -> Result<Option<Label>, Stop>
    ensures ok { IfOk result (Observes order.now (option_map (λ s. s.now) name.entry)) }
    ensures stop { IfErr result (IsStop (UnnamedStops observer_option order.now (option_map (λ s. s.now) name.entry))) }
{
    let Some(word) = name else {
        return Ok(None);
    };
    match label_named(alloc, order, b"observer", word) {
        Ok(label) => Ok(Some(label)),
        Err(stop) => Err(stop),
    }
}
