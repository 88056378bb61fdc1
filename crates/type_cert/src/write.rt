//! How a certificate is written.

ghost use Rattle.std.specs.Prelude.{◌≡◌, ◌<◌, ◌++◌, codes, OnOk, None};
ghost use Rattle.mit_syntax.specs.Valid.{IsBelow};
ghost use Rattle.type_cert.specs.Text.{named, level_text, head_text, tail_text, line_text, variable_text};
ghost use Rattle.type_cert.specs.Demands.{HasLabels};

use crate::line::Line;
use itoa::Buffer;
use label_lattice::label::Label;
use label_lattice::lattice::Lattice;
use label_lattice::name::Name;
use std::alloc::AllocError;
use timing_types::rule::Rule;

fn put_named(
    out: &mut Vec<u8>,
    words: &[u8],
    order: &Lattice,
    label: Label,
) -> Result<(), AllocError>
    requires { label.number < order.now.size }
    ensures { OnOk result (out.new.items ≡ out.old.items ++ named order.now words.now label) }
{
    let name = order.name(label);
    out.extend_from_slice(words)?;
    out.extend_from_slice(name.bytes())?;
    Ok(())
}

fn put_level(out: &mut Vec<u8>, order: &Lattice, level: Option<Label>) -> Result<(), AllocError>
    requires { IsBelow order.now.size level }
    ensures { OnOk result (out.new.items ≡ out.old.items ++ level_text order.now level) }
{
    match level {
        None => Ok(()),
        Some(level) => put_named(out, b" level ", order, level),
    }
}

/// Puts the number of a command, and its rule.
fn put_head(out: &mut Vec<u8>, number: usize, rule: Rule) -> Result<(), AllocError>
    ensures { OnOk result (out.new.items ≡ out.old.items ++ head_text number rule) }
{
    let mut buffer = Buffer::new();
    out.extend_from_slice(buffer.format(number).as_bytes())?;
    out.push(b' ')?;
    out.extend_from_slice(rule.name())?;
    Ok(())
}

/// Puts the labels of a line, and its end.
fn put_tail(out: &mut Vec<u8>, order: &Lattice, line: &Line) -> Result<(), AllocError>
    requires { HasLabels order.now.size line.now }
    ensures { OnOk result (out.new.items ≡ out.old.items ++ tail_text order.now line.now) }
{
    put_named(out, b" pc ", order, line.pc)?;
    put_named(out, b" start ", order, line.start)?;
    put_named(out, b" er ", order, line.read)?;
    put_named(out, b" ew ", order, line.write)?;
    put_named(out, b" end ", order, line.end)?;
    put_level(out, order, line.level)?;
    out.push(b'\n')?;
    Ok(())
}

/// Puts the line of the command with a number.
pub fn put_line(
    out: &mut Vec<u8>,
    order: &Lattice,
    number: usize,
    line: &Line,
) -> Result<(), AllocError>
    requires { HasLabels order.now.size line.now }
    ensures { OnOk result (out.new.items ≡ out.old.items ++ line_text order.now number line.now) }
{
    put_head(out, number, line.rule)?;
    put_tail(out, order, line)?;
    Ok(())
}

/// Puts the line of a declaration.
pub fn put_variable(
    out: &mut Vec<u8>,
    order: &Lattice,
    name: Name,
    label: Label,
) -> Result<(), AllocError>
    requires { label.number < order.now.size }
    ensures { OnOk result (out.new.items ≡ out.old.items ++ variable_text order.now name label) }
{
    out.extend_from_slice(b"var ")?;
    out.extend_from_slice(name.bytes())?;
    put_named(out, b" ", order, label)?;
    out.push(b'\n')?;
    Ok(())
}
