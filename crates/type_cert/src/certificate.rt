//! Writing the certificate of a labelled program.

ghost use Rattle.std.specs.Prelude.{◌≡◌, ◌<◌, ◌++◌, ℕ, List, length, OnOk, IfOk};
ghost use Rattle.timing_types.specs.Labelled.{labels_of};
ghost use Rattle.label_infer.specs.Given.{AllFrom};
ghost use Rattle.type_cert.specs.declared.line.Line.{Line};
ghost use Rattle.type_cert.specs.Demands.{HasLabels};
ghost use Rattle.type_cert.specs.Derived.{declared_labels, derived_text};
ghost use Rattle.type_cert.specs.Text.{lines_text, variables_text};

use crate::derive::derive;
use crate::line::Line;
use crate::write::{put_line, put_variable};
use label_lattice::lattice::Lattice;
use std::alloc::{AllocError, Global};
use timing_types::labelled::Labelled;

/// Puts the lines of the declarations.
fn put_variables(out: &mut Vec<u8>, order: &Lattice, q: &Labelled) -> Result<(), AllocError>
    requires { order.now ≡ q.now.program.order }
    ensures { OnOk result (out.new.items ≡ out.old.items ++ variables_text order.now q.now.program.declarations
        (declared_labels (labels_of q.now) 0 q.now.program.declarations)) }
{
    let declarations = q.program().declarations();
    let mut first = 0;
    for k in 0..declarations.len() {
        let (name, decl) = declarations.declaration(k);
        put_variable(out, order, name, q.labels().variable(first, order))?;
        first += decl.length.unwrap_or(1);
    }
    Ok(())
}

/// Puts the lines of the commands.
fn put_lines(out: &mut Vec<u8>, order: &Lattice, lines: &[Line]) -> Result<(), AllocError>
    requires { AllFrom (λ (i : ℕ) (x : Line). HasLabels order.now.size x) 0 lines.now }
    ensures { OnOk result (out.new.items ≡ out.old.items ++ lines_text order.now 0 lines.now) }
{
    for (number, line) in lines.iter().enumerate() {
        put_line(out, order, number, line)?;
    }
    Ok(())
}

/// The certificate of a labelled program: the label of each declaration, and the line of each command. It is one
/// where the labelling types the program and a command without marks has `pc | li` twice, as it has in the least
/// labelling. Then it holds this labelling.
pub fn certificate(alloc: Global, q: &Labelled) -> Result<Vec<u8>, AllocError>
    ensures { IfOk result (λ v. v.items ≡ derived_text q.now) }
{
    let order = q.program().lattice();
    q.program().laws();
    let lines = derive(alloc, q)?;
    let mut out = Vec::new(alloc);
    out.extend_from_slice(b"certificate 1\n")?;
    put_variables(&mut out, order, q)?;
    put_lines(&mut out, order, &lines)?;
    Ok(out)
}
