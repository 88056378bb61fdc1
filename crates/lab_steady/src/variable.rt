//! What is told of the variable to blame.

ghost use Rattle.std.specs.Prelude.{◌≡◌, IfOk};
ghost use Rattle.timing_types.specs.Labelled.{labels_of};
ghost use Rattle.label_infer.specs.Least.{IsLeast};
ghost use Rattle.flow_print.specs.Lines.{variable_text};
ghost use Rattle.lab_steady.specs.Text.{declared_line as line_of_declared};
ghost use Rattle.lab_steady.specs.Why.{TellsBlamed, TellsVariable};

use crate::words::{put_label, put_variable};
use flow_path::step::Spot;
use flow_path::written::written_at;
use lab_why::origins::label_text;
use label_lattice::label::Label;
use mit_syntax::program::Program;
use mit_syntax::token::Token;
use std::alloc::{AllocError, Global};
use text_base::pos::Memory;
use timing_types::labelled::Labelled;

/// The line of a variable whose label the program writes.
fn declared_line(alloc: Global, p: &Labelled, x: u32, label: Label) -> Result<Vec<u8>, AllocError>
    requires { label.number ≡ labels_of p.now x }
    ensures { IfOk result (λ v. v.items ≡ line_of_declared p.now x) }
{
    let program = p.program();
    let mut out = Vec::new(alloc);
    put_variable(&mut out, program, x)?;
    out.extend_from_slice(b" is declared ")?;
    put_label(&mut out, program, label)?;
    out.extend_from_slice(b"\n")?;
    Ok(out)
}

/// The name of a variable.
fn variable_name(alloc: Global, p: &Program, x: u32) -> Result<Vec<u8>, AllocError>
    ensures { IfOk result (λ v. v.items ≡ variable_text p.now x) }
{
    let mut out = Vec::new(alloc);
    put_variable(&mut out, p, x)?;
    Ok(out)
}

/// What is told of a variable of a program that is spelled by the tokens of a text: that its label is declared, or, where
/// the program leaves it out, by which chains it comes from labels that are written.
fn variable_lines(
    alloc: Global,
    p: &Labelled,
    text: &[u8],
    tokens: &[Token],
    x: u32,
) -> Result<Vec<u8>, Memory>
    requires { IsLeast p.now.program p.now.labels }
    ensures { IfOk result (λ v. TellsVariable text.now tokens.now p.now x v.items) }
{
    let program = p.program();
    let spot = Spot::Variable(x);
    match written_at(program, &spot) {
        Some(_) => {
            let label = p.labels().variable(x, program.lattice());
            Ok(declared_line(alloc, p, x, label)?)
        }
        None => {
            let name = variable_name(alloc, program, x)?;
            let lines = label_text(alloc, text, tokens, p, name.as_slice(), &spot)?;
            Ok(lines)
        }
    }
}

/// What is told of the variable to blame, if there is one.
///
/// # Errors
/// `Memory` is want of memory.
pub(crate) fn blamed_lines(
    alloc: Global,
    p: &Labelled,
    text: &[u8],
    tokens: &[Token],
    variable: Option<u32>,
) -> Result<Vec<u8>, Memory>
    requires { IsLeast p.now.program p.now.labels }
    ensures { IfOk result (λ v. TellsBlamed text.now tokens.now p.now variable v.items) }
{
    match variable {
        Some(x) => variable_lines(alloc, p, text, tokens, x),
        None => Ok(Vec::new(alloc)),
    }
}
