//! Declarations with all labels of a labelling.

ghost use Rattle.std.specs.Prelude.{◌≡◌, IfOk, map};
ghost use Rattle.label_lattice.specs.Order.{AllDiffer};
ghost use Rattle.mit_syntax.specs.Declarations.{size_of};
ghost use Rattle.label_write.specs.Written.{written_declarations};

use indexmap::IndexMap;
use label_lattice::lattice::Lattice;
use label_lattice::name::Name;
use mit_syntax::declarations::{Decl, Variables};
use std::alloc::{AllocError, Global};
use timing_types::labels::Labels;

/// How many variables a declaration declares.
fn size_of(decl: Decl) -> u32
    ensures { result ≡ size_of decl }
{
    match decl.length {
        None => 1,
        Some(length) => length,
    }
}

/// The declarations, whose names differ, each with the label of its first variable.
///
/// # Errors
/// `AllocError` where memory runs out.
pub fn write_declarations(
    alloc: Global,
    variables: &Variables,
    labels: &Labels,
    order: &Lattice,
) -> Result<IndexMap<Name, Decl>, AllocError>
    requires { AllDiffer (map (λ d. d.0) variables.now) }
    ensures { IfOk result (λ t. t.entries ≡ written_declarations order.now labels.now variables.now 0) }
{
    let mut table = IndexMap::with_capacity(alloc, variables.len())?;
    let mut first = 0;
    for k in 0..variables.len() {
        let (name, decl) = variables.declaration(k);
        let label = Some(labels.variable(first, order));
        let length = decl.length;
        table.insert(name, Decl { label, length })?;
        first += size_of(decl);
    }
    Ok(table)
}
