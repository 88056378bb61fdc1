//! Which origins of a label are needed.

ghost use Rattle.std.specs.Prelude.{◌≡◌, All, Contains, IfOk};
ghost use Rattle.label_lattice.specs.Order.{lattice_of};
ghost use Rattle.flow_path.specs.Origins.{joined, AreNeeded, needed_after};

use crate::origins::Origin;
use label_lattice::label::Label;
use label_lattice::lattice::Lattice;
use std::alloc::{AllocError, Global};

/// The join of their labels, with bottom.
pub(crate) fn join_of(lattice: &Lattice, origins: &[Origin]) -> Label
    ensures { result.number ≡ joined (lattice_of lattice.now) origins.now }
{
    let mut all = lattice.bottom();
    let mut i = origins.len();
    while i > 0 {
        i -= 1;
        all = lattice.join(origins[i].label, all);
    }
    all
}

/// Leaves out each origin whose label flows to the join of the others that are left, the last one first.
pub(crate) fn needed(
    alloc: Global,
    lattice: &Lattice,
    told: Vec<Origin>,
) -> Result<Vec<Origin>, AllocError>
    ensures needed { IfOk result (λ ws. AreNeeded (lattice_of lattice.now) ws.items) }
    ensures join { IfOk result (λ ws. joined (lattice_of lattice.now) ws.items ≡ joined (lattice_of lattice.now) told.items) }
    ensures is { IfOk result (λ ws. ws.items ≡ needed_after (lattice_of lattice.now) lattice.now.bottom told.items) }
    ensures among { IfOk result (λ ws. All (Contains told.items) ws.items) }
{
    lattice.laws();
    let mut left = told;
    let mut kept = Vec::new(alloc);
    while let Some(origin) = left.pop() {
        let others = lattice.join(join_of(lattice, &left), join_of(lattice, &kept));
        if !lattice.flows(origin.label, others) {
            kept.insert(0, origin)?;
        }
    }
    Ok(kept)
}
