//! Labellings from the labels of variables and the levels.

ghost use Rattle.std.specs.Prelude.{◌≡◌, IfOk, IfErr};
ghost use Rattle.label_lattice.specs.Order.{lattice_of};
ghost use Rattle.mit_syntax.specs.Program.{plan_of};
ghost use Rattle.mit_syntax.specs.Valid.{IsValid};
ghost use Rattle.timing_types.specs.Labelling.{label_at};
ghost use Rattle.label_infer.specs.Least.{Labels, IsLeast};
ghost use Rattle.label_infer.specs.Given.{KeepsVariables, KeepsLevels, WritesAll, own_pairs};

use crate::marks::list_pairs;
use label_lattice::label::Label;
use mit_syntax::program::Program;
use std::alloc::{AllocError, Global};
use text_base::pos::Memory;
use timing_types::labelled::Labelled;

/// The labels of a program's commands, in order of the text.
fn pairs(alloc: Global, p: &Program, variables: &[Label]) -> Result<Vec<(Label, Label)>, AllocError>
    ensures valid { IfOk result (λ _. IsValid p.now) }
    ensures pairs { IfOk result (λ v. v.items ≡ own_pairs (lattice_of p.now.order) (label_at p.now.order.bottom variables.now) (plan_of p.now)
        p.now.order.bottom) }
{
    let order = p.lattice();
    let mut found = Vec::new(alloc);
    list_pairs(p.body(), variables, order, order.bottom(), &mut found)?;
    Ok(found)
}

/// The labelling of a program with these labels of its variables and these levels, which keep what the
/// program writes: a command without marks has `pc | li` twice. Where the program omits no label of a
/// variable and no level, that is its least labelling.
///
/// # Errors
/// `Memory` is want of memory; then the program comes back.
pub fn complete(
    alloc: Global,
    p: Program,
    variables: Vec<Label>,
    levels: Vec<Label>,
) -> Result<Labelled, (Program, Memory)>
    requires variables { KeepsVariables p variables.items }
    requires levels { KeepsLevels p levels.items }
    ensures program { IfOk result (λ q. q.program ≡ p) }
    ensures variables { IfOk result (λ q. q.labels.variables ≡ variables.items) }
    ensures levels { IfOk result (λ q. q.labels.levels ≡ levels.items) }
    ensures labels { IfOk result (λ q. Labels p q.labels) }
    ensures least { IfOk result (λ q. WritesAll p → IsLeast p q.labels) }
    ensures kept { IfErr result (λ e. e.0 ≡ p) }
{
    match pairs(alloc, &p, &variables) {
        Ok(commands) => Ok(Labelled::of(p, variables, commands, levels)),
        Err(_) => Err((p, Memory)),
    }
}
