//! Left sides before omitted labels are known.

ghost use Rattle.std.specs.Prelude.{◌≡◌, IfOk};
ghost use Rattle.label_infer.specs.LeftSideOf.{left_side_of};
ghost use Rattle.label_infer.specs.Constraints.{fixed, both};
ghost use Rattle.label_infer.specs.ConstraintsOf.{lat_of};

use crate::variable_set::VariableSet;
use crate::written_labels::Known;
use label_lattice::label::Label;
use std::alloc::AllocError;

/// A label that is fixed, joined with the labels of some variables.
#[derive(Drop)]
pub(crate) struct LeftSide {
    pub(crate) base: Label,
    pub(crate) variables: VariableSet,
}

impl LeftSide {
    /// The same left side.
    pub(crate) fn copy(&self) -> Result<LeftSide, AllocError>
        ensures { IfOk result (λ f. left_side_of f ≡ left_side_of self.now) }
    {
        Ok(LeftSide {
            base: self.base,
            variables: self.variables.copy()?,
        })
    }
}

/// A label alone.
pub(crate) fn fixed(base: Label) -> LeftSide
    ensures { left_side_of result ≡ fixed base.number }
{
    LeftSide {
        base,
        variables: VariableSet::Empty,
    }
}

/// Both joined.
pub(crate) fn both(k: &Known<'_>, a: &LeftSide, b: &LeftSide) -> Result<LeftSide, AllocError>
    ensures { IfOk result (λ f. left_side_of f ≡ both (lat_of k.now) (left_side_of a.now) (left_side_of b.now)) }
{
    Ok(LeftSide {
        base: k.order.join(a.base, b.base),
        variables: a.variables.union(k.alloc, &b.variables)?,
    })
}
