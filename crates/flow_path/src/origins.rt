//! Where a label comes from that a program omits.

ghost use Rattle.std.specs.Prelude.{◌≡◌, ◌+◌, ℕ, [], All, Some, None, IfOk, IfSome, IfNone};
ghost use Rattle.mit_syntax.specs.Valid.{IsValid};
ghost use Rattle.timing_types.specs.Labelled.{order_of};
ghost use Rattle.label_infer.specs.Least.{IsLeast};
ghost use Rattle.flow_path.specs.Steps.{written};
ghost use Rattle.flow_path.specs.Chains.{ComesFrom};
ghost use Rattle.flow_path.specs.Origins.{IsOmitted, label_there, joined, IsOrigin, AreNeeded, AreAll, AreTold};
ghost use Rattle.flow_path.specs.Collecting.{AreBelow};

use crate::needed::needed;
use crate::rank::place;
use crate::settle::settled;
use crate::step::{Spot, Step};
use crate::target::Target;
use crate::told::chain_to;
use crate::written::written_at;
use label_lattice::label::Label;
use label_lattice::lattice::Lattice;
use mit_syntax::program::Program;
use std::alloc::{AllocError, Global};
use text_base::pos::Memory;
use timing_types::labelled::Labelled;

/// A written label, and a chain that leads from it.
#[derive(Drop)]
pub struct Origin {
    pub label: Label,
    pub chain: Vec<Step>,
}

/// The chain from a written label to an omitted one, if one leads there.
fn from_label(
    alloc: Global,
    p: &Program,
    spot: &Spot,
    label: Label,
) -> Result<Option<Origin>, AllocError>
    requires valid { IsValid p.now }
    requires omitted { written p.now spot.now ≡ None }
    ensures some { IfOk result (λ o. IfSome o (λ w. (w.label ≡ label) × IsOrigin p.now spot.now w)) }
    ensures none { IfOk result (λ o. IfNone o (ComesFrom p.now spot.now label.number → ⊥)) }
{
    let target = Target::From { spot: *spot, label };
    let all = settled(alloc, p, &target)?;
    match all.goal {
        Some(last) => {
            let chain = chain_to(alloc, p, &all, last)?;
            Ok(Some(Origin { label, chain }))
        }
        None => Ok(None),
    }
}

/// Puts the chain from a label to its place among those from the labels before it, if one leads there.
fn tell(
    alloc: Global,
    p: &Program,
    lattice: &Lattice,
    spot: &Spot,
    label: Label,
    told: &mut Vec<Origin>,
) -> Result<(), AllocError>
    requires valid { IsValid p.now }
    requires omitted { written p.now spot.now ≡ None }
    requires lattice { lattice.now ≡ p.now.order }
    ensures { IfOk result (λ _. AreBelow p.now spot.now label.number told.old.items → AreBelow p.now spot.now (label.number + 1) told.new.items) }
{
    if let Some(new) = from_label(alloc, p, spot, label)? {
        let i = place(lattice, told, &new);
        told.insert(i, new)?;
    }
    Ok(())
}

/// The chains from all labels from which one leads there, in their order.
fn all_told(alloc: Global, p: &Program, spot: &Spot) -> Result<Vec<Origin>, AllocError>
    requires valid { IsValid p.now }
    requires omitted { written p.now spot.now ≡ None }
    ensures { IfOk result (λ ws. AreAll p.now spot.now ws.items) }
{
    let lattice = p.lattice();
    let mut told = Vec::new(alloc);
    for number in 0..lattice.size() {
        let label = Label {
            number: number as u8,
        };
        tell(alloc, p, lattice, spot, label, &mut told)?;
    }
    Ok(told)
}

/// Where the label of a variable or of a mitigate's level comes from that the program omits, in the least labelling:
/// written labels whose join it is, none of which can be left out, each with the chain that leads from there: none from that
/// label is cheaper, and of those that are as cheap it is the one that has the earlier step where they part, seen from their
/// ends. The cheapest comes first; of those that cost as much the one to whose label more labels flow, and then the one whose
/// label the program names first. From the last on each is left out whose label flows to the join of those that are left. A
/// label that is written has no such chains.
///
/// # Errors
/// `Memory` is want of memory.
pub fn why_label(alloc: Global, p: &Labelled, spot: &Spot) -> Result<Vec<Origin>, Memory>
    requires { IsLeast p.now.program p.now.labels }
    ensures origins { IfOk result (λ ws. All (IsOrigin p.now.program spot.now) ws.items) }
    ensures join { IfOk result (λ ws. IsOmitted p.now.program spot.now → joined (order_of p.now) ws.items ≡ label_there p.now spot.now) }
    ensures needed { IfOk result (λ ws. AreNeeded (order_of p.now) ws.items) }
    ensures none { IfOk result (λ ws. (IsOmitted p.now.program spot.now → ⊥) → ws.items ≡ []) }
    ensures told { IfOk result (λ ws. written p.now.program spot.now ≡ None → AreTold p.now.program spot.now ws.items) }
{
    let program = p.program();
    if written_at(program, spot).is_some() {
        return Ok(Vec::new(alloc));
    }
    // The call stands for what it says: the program is valid.
    let _ = program.body();
    let told = all_told(alloc, program, spot)?;
    let kept = needed(alloc, program.lattice(), told)?;
    Ok(kept)
}
