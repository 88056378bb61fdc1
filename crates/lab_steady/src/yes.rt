//! The text of a yes.

ghost use Rattle.std.specs.Prelude.{◌≡◌, ◌≤◌, ◌++◌, OnOk, IfOk};
ghost use Rattle.mit_syntax.specs.Declarations.{variables};
ghost use Rattle.timing_types.specs.Labelled.{order_of, labels_of};
ghost use Rattle.steady_code.specs.Timed.{low_of};
ghost use Rattle.lab_steady.specs.Text.{costing_line, end_line, is_empty as none_named, names_line, word_if};
ghost use Rattle.lab_steady.specs.Text.{seen_below, sees_text, told_of, yes_text as text_of_yes};

use crate::blame::is_seen;
use crate::words::{put_label, put_natural};
use label_lattice::label::Label;
use mit_syntax::program::Program;
use std::alloc::{AllocError, Global};
use steady_code::costing::{Constant, Costing};
use timing_types::labelled::Labelled;

/// How many variables an observer sees.
fn seen(p: &Labelled, observer: Label) -> u32
    ensures { result ≡ seen_below (low_of (order_of p.now) (labels_of p.now) observer.number) (variables p.now.program.declarations) }
{
    let mut count = 0;
    for x in 0..p.program().variables() {
        if is_seen(p, observer, x) {
            count += 1;
        }
    }
    count
}

/// Whether the end is asked about.
fn end_words(whole: bool) -> &'static [u8]
    ensures { result.now ≡ end_line whole }
{
    if whole {
        b"end asked\n".as_slice()
    } else {
        b"end not asked\n".as_slice()
    }
}

/// Puts a word where a test holds.
fn put_if(out: &mut Vec<u8>, holds: bool, word: &[u8]) -> Result<(), AllocError>
    ensures { OnOk result (out.new.items ≡ out.old.items ++ word_if holds word.now) }
{
    if holds {
        out.extend_from_slice(word)?;
    }
    Ok(())
}

/// Whether no operator is named.
fn is_empty(constant: Constant) -> bool
    ensures { result ≡ none_named constant }
{
    !(constant.add
        || constant.subtract
        || constant.multiply
        || constant.divide
        || constant.remainder
        || constant.compare)
}

/// Puts the names of operators.
fn put_names(out: &mut Vec<u8>, constant: Constant) -> Result<(), AllocError>
    ensures { OnOk result (out.new.items ≡ out.old.items ++ names_line constant) }
{
    out.extend_from_slice(b"constant")?;
    put_if(out, is_empty(constant), b" none")?;
    put_if(out, constant.add, b" add")?;
    put_if(out, constant.subtract, b" subtract")?;
    put_if(out, constant.multiply, b" multiply")?;
    put_if(out, constant.divide, b" divide")?;
    put_if(out, constant.remainder, b" remainder")?;
    put_if(out, constant.compare, b" compare")?;
    out.extend_from_slice(b"\n")?;
    Ok(())
}

/// Puts the line of the operators that are named.
fn put_costing(out: &mut Vec<u8>, costing: Costing) -> Result<(), AllocError>
    ensures { OnOk result (out.new.items ≡ out.old.items ++ costing_line costing) }
{
    match costing {
        Costing::Table => Ok(()),
        Costing::Only(constant) => put_names(out, constant),
    }
}

/// Puts what was asked.
fn put_asked(
    out: &mut Vec<u8>,
    p: &Program,
    observer: Label,
    parts: Label,
    costing: Costing,
    whole: bool,
) -> Result<(), AllocError>
    ensures { OnOk result (out.new.items ≡ out.old.items ++ told_of costing p.now observer.number parts.number whole) }
{
    out.extend_from_slice(b"steady\nobserver ")?;
    put_label(out, p, observer)?;
    out.extend_from_slice(b"\nparts ")?;
    put_label(out, p, parts)?;
    out.extend_from_slice(b"\n")?;
    put_costing(out, costing)?;
    out.extend_from_slice(end_words(whole))?;
    Ok(())
}

/// Puts how many variables the observer sees, of how many.
fn put_sees(out: &mut Vec<u8>, seen: u32, all: u32) -> Result<(), AllocError>
    ensures { OnOk result (out.new.items ≡ out.old.items ++ sees_text seen all) }
{
    out.extend_from_slice(b"sees ")?;
    put_natural(out, seen)?;
    out.extend_from_slice(b" of ")?;
    put_natural(out, all)?;
    out.extend_from_slice(b" variables\n")?;
    Ok(())
}

/// The text of a yes.
///
/// # Errors
/// `AllocError` is want of memory.
pub(crate) fn yes_text(
    alloc: Global,
    p: &Labelled,
    observer: Label,
    parts: Label,
    costing: Costing,
    whole: bool,
) -> Result<Vec<u8>, AllocError>
    ensures { IfOk result (λ v. v.items ≡ text_of_yes costing p.now observer.number parts.number whole) }
{
    let mut out = Vec::new(alloc);
    put_asked(&mut out, p.program(), observer, parts, costing, whole)?;
    put_sees(&mut out, seen(p, observer), p.program().variables())?;
    Ok(out)
}
