//! The lines of a text.

ghost use Rattle.std.specs.Prelude.{◌≡◌, ◌++◌, ℕ, List, Some, OnOk, codes, decimal, map, slice_get};
ghost use Rattle.label_code.specs.Machine.{Event};
ghost use Rattle.tool_texts.specs.Reports.{unfinished_line};
ghost use Rattle.leak_audit.specs.Observed.{event_of};
ghost use Rattle.leak_classes.specs.Views.{classes_of};
ghost use Rattle.space_leak.specs.Text.{class_line, class_lines, head_lines, ranging_line};

use crate::field::{put_field, put_variable};
use label_lattice::label::Label;
use label_lattice::lattice::Lattice;
use leak_audit::sighting::Sighting;
use leak_classes::known::Known;
use mit_syntax::program::Program;
use seen_line::cells::put_number;
use std::alloc::AllocError;
use tim_base::line::Line;
use tool_texts::lines::number;
use tool_texts::lines::report::label;

/// The line of a variable that an observer sees and that has two values or more.
pub(crate) fn ranging(p: &Program, x: u32) -> Line
    ensures { result ≡ ranging_line p.now x }
{
    let mut line = Line::new();
    line.put_text(b"disagree: variable ");
    put_variable(&mut line, p, x);
    line.put_text(b"\n");
    line
}

/// The line of a run that has not halted, and its clock.
pub(crate) fn unfinished(run: u64, cycle: u64) -> Line
    ensures { result ≡ unfinished_line run cycle }
{
    let mut line = Line::new();
    put_number(&mut line, b"unfinished: run ", run);
    put_number(&mut line, b" @", cycle);
    line.put_text(b"\n");
    line
}

// Appends a line.
fn put(text: &mut Vec<u8>, line: &Line) -> Result<(), AllocError>
    ensures { OnOk result (text.new.items ≡ text.old.items ++ line.now) }
{
    text.extend_from_slice(line.bytes())
}

/// Appends the number of the starts, the observer, and the budget in cycles.
///
/// # Errors
/// `AllocError` where memory runs out.
pub(crate) fn put_head(
    text: &mut Vec<u8>,
    order: &Lattice,
    observer: Label,
    budget: u64,
    starts: u64,
) -> Result<(), AllocError>
    ensures { OnOk result (text.new.items ≡ text.old.items ++ head_lines order.now observer budget starts) }
{
    put(text, &number(b"starts ", starts))?;
    put(text, &label(b"observer ", order, observer))?;
    put(text, &number(b"budget ", budget))?;
    Ok(())
}

// What stands before the field of a class.
fn class_words(size: u64, first: u64) -> Line
    ensures { result ≡ codes "class " ++ (decimal size ++ (codes " first " ++ (decimal first ++ codes "\t"))) }
{
    let mut line = Line::new();
    put_number(&mut line, b"class ", size);
    put_number(&mut line, b" first ", first);
    line.put_text(b"\t");
    line
}

// Appends the line of a class.
fn put_class(
    text: &mut Vec<u8>,
    p: &Program,
    sequence: &[Sighting],
    size: u64,
    first: u64,
) -> Result<(), AllocError>
    ensures { OnOk result (text.new.items ≡ text.old.items ++ class_line p.now.declarations (map event_of sequence.now) size first) }
{
    put(text, &class_words(size, first))?;
    put_field(text, p, sequence)?;
    text.extend_from_slice(b"\n")
}

// Appends the line of the class at a place, whose first start has a number; nothing where there is no class.
fn put_entry(
    text: &mut Vec<u8>,
    p: &Program,
    known: &Known,
    place: usize,
    first: u64,
) -> Result<(), AllocError>
    ensures { OnOk result ((c : List Event × ℕ) → slice_get (classes_of known.now).seen place ≡ Some c
        → text.new.items ≡ text.old.items ++ class_line p.now.declarations c.0 c.1 first) }
{
    let Some((sequence, size)) = known.classes.get_index(place) else {
        return Ok(());
    };
    put_class(text, p, sequence, *size, first)
}

/// Appends the lines of all classes.
///
/// # Errors
/// `AllocError` where memory runs out.
pub(crate) fn put_classes(text: &mut Vec<u8>, p: &Program, known: &Known) -> Result<(), AllocError>
    ensures { OnOk result (text.new.items ≡ text.old.items
        ++ class_lines p.now.declarations (classes_of known.now).seen (classes_of known.now).firsts) }
{
    let firsts = known.firsts.as_slice();
    for i in 0..known.classes.len().min(firsts.len()) {
        put_entry(text, p, known, i, firsts[i])?;
    }
    Ok(())
}
