//! The header and the declarations of the canonical text.

ghost use Rattle.std.specs.Prelude.{◌≡◌, ◌<◌, OnOk, All};
ghost use Rattle.label_lattice.specs.Chains.{AreBelow};
ghost use Rattle.label_lattice.specs.Order.{name_of};
ghost use Rattle.mit_syntax.specs.Valid.{IsBelow};
ghost use Rattle.mit_syntax.specs.Layout.{Puts, a_name, comma_before, listed, pair_part, end_line};
ghost use Rattle.mit_syntax.specs.Layout.{labels_part, order_part, length_part, label_part, declaration_part, declarations_part};

use crate::declarations::{Decl, Variables};
use crate::print::chunks::{
    put_comma, put_key, put_line, put_name, put_natural, put_sign, put_space, put_spaced,
};
use crate::token::{Keyword, Sign};
use label_lattice::label::Label;
use label_lattice::lattice::Lattice;
use label_lattice::name::Name;
use std::alloc::AllocError;

/// Puts the name of a label.
pub fn put_label(out: &mut Vec<u8>, labels: &Lattice, label: Label) -> Result<(), AllocError>
    requires { label.number < labels.now.size }
    ensures { OnOk result (Puts out.old.items out.new.items (a_name (name_of labels.now label.number))) }
{
    put_name(out, labels.name(label))
}

// What stands before the part after i others.
fn put_comma_before(out: &mut Vec<u8>, i: usize) -> Result<(), AllocError>
    ensures { OnOk result (Puts out.old.items out.new.items (comma_before i)) }
{
    if i > 0 {
        put_comma(out)?;
    }
    Ok(())
}

fn put_end_line(out: &mut Vec<u8>) -> Result<(), AllocError>
    ensures { OnOk result (Puts out.old.items out.new.items end_line) }
{
    put_sign(out, Sign::Semicolon)?;
    put_line(out)?;
    Ok(())
}

fn put_names(out: &mut Vec<u8>, labels: &Lattice) -> Result<(), AllocError>
    ensures { OnOk result (Puts out.old.items out.new.items (listed a_name labels.now.names)) }
{
    labels.laws();
    for number in 0..labels.size() {
        put_comma_before(out, number as usize)?;
        put_label(out, labels, Label::new(number as u8))?;
    }
    Ok(())
}

/// Puts the line of labels.
pub fn put_labels(out: &mut Vec<u8>, labels: &Lattice) -> Result<(), AllocError>
    ensures { OnOk result (Puts out.old.items out.new.items (labels_part labels.now)) }
{
    put_key(out, Keyword::Labels)?;
    put_space(out)?;
    put_names(out, labels)?;
    put_end_line(out)?;
    Ok(())
}

fn put_pair(
    out: &mut Vec<u8>,
    labels: &Lattice,
    lower: Label,
    upper: Label,
) -> Result<(), AllocError>
    requires lower { lower.number < labels.now.size }
    requires upper { upper.number < labels.now.size }
    ensures { OnOk result (Puts out.old.items out.new.items (pair_part labels.now (lower, upper))) }
{
    put_label(out, labels, lower)?;
    put_spaced(out, Sign::Less)?;
    put_label(out, labels, upper)?;
    Ok(())
}

fn put_pairs(
    out: &mut Vec<u8>,
    labels: &Lattice,
    pairs: &[(Label, Label)],
) -> Result<(), AllocError>
    requires { AreBelow labels.now.size pairs.now }
    ensures { OnOk result (Puts out.old.items out.new.items (listed (pair_part labels.now) pairs.now)) }
{
    for (i, pair) in pairs.iter().enumerate() {
        put_comma_before(out, i)?;
        put_pair(out, labels, pair.0, pair.1)?;
    }
    Ok(())
}

/// Puts the line of pairs, if there are any.
pub fn put_order(
    out: &mut Vec<u8>,
    labels: &Lattice,
    pairs: &[(Label, Label)],
) -> Result<(), AllocError>
    requires { AreBelow labels.now.size pairs.now }
    ensures { OnOk result (Puts out.old.items out.new.items (order_part labels.now pairs.now)) }
{
    if pairs.is_empty() {
        return Ok(());
    }
    put_key(out, Keyword::Order)?;
    put_space(out)?;
    put_pairs(out, labels, pairs)?;
    put_end_line(out)?;
    Ok(())
}

fn put_length(out: &mut Vec<u8>, length: Option<u32>) -> Result<(), AllocError>
    ensures { OnOk result (Puts out.old.items out.new.items (length_part length)) }
{
    match length {
        None => Ok(()),
        Some(length) => {
            put_sign(out, Sign::LeftSquare)?;
            put_natural(out, length)?;
            put_sign(out, Sign::RightSquare)?;
            Ok(())
        }
    }
}

fn put_variable_label(
    out: &mut Vec<u8>,
    labels: &Lattice,
    label: Option<Label>,
) -> Result<(), AllocError>
    requires { IsBelow labels.now.size label }
    ensures { OnOk result (Puts out.old.items out.new.items (label_part labels.now label)) }
{
    match label {
        None => Ok(()),
        Some(label) => {
            put_spaced(out, Sign::Colon)?;
            put_label(out, labels, label)?;
            Ok(())
        }
    }
}

fn put_declaration(
    out: &mut Vec<u8>,
    labels: &Lattice,
    name: Name,
    decl: Decl,
) -> Result<(), AllocError>
    requires { IsBelow labels.now.size decl.label }
    ensures { OnOk result (Puts out.old.items out.new.items (declaration_part labels.now (name, decl))) }
{
    put_key(out, Keyword::Var)?;
    put_space(out)?;
    put_name(out, name)?;
    put_length(out, decl.length)?;
    put_variable_label(out, labels, decl.label)?;
    put_end_line(out)?;
    Ok(())
}

/// Puts a line for each declaration.
pub fn put_declarations(
    out: &mut Vec<u8>,
    labels: &Lattice,
    variables: &Variables,
) -> Result<(), AllocError>
    requires { All (λ d. IsBelow labels.now.size d.1.label) variables.now }
    ensures { OnOk result (Puts out.old.items out.new.items (declarations_part labels.now variables.now)) }
{
    for k in 0..variables.len() {
        let (name, decl) = variables.declaration(k);
        put_declaration(out, labels, name, decl)?;
    }
    Ok(())
}
