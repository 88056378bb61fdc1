//! The lattices that tests of several crates begin with.
#![tactic(auto)]

ghost use Rattle.std.specs.Prelude.{◌≡◌, ℕ, ◌<◌, [], ◌↔◌, IfSome};
ghost use Rattle.label_lattice.specs.Chains.{Chain};
ghost use Rattle.label_lattice.specs.Lattice.{Flows};
ghost use Rattle.label_lattice.specs.Order.{lattice_of};
ghost use Rattle.sample_lattice.specs.Sample.{low_below_high};

use label_lattice::label::Label;
use label_lattice::lattice::Lattice;
use label_lattice::name::Name;

/// The label L of both lattices.
pub const LOW: Label = Label { number: 0 };

/// The label H of the lattice of two labels.
pub const HIGH: Label = Label { number: 1 };

/// The lattice of the label L alone.
pub fn one_label() -> Option<Lattice>
    ensures size { IfSome result (λ o. o.size ≡ 1) }
    ensures flows { IfSome result (λ o. (a b : ℕ) → a < 1 → b < 1 → Flows (lattice_of o) a b ↔ Chain [] a b) }
{
    let name = Name::read(b"L")?;
    Lattice::build(&[name], &[]).ok()
}

/// The lattice of the labels L and H, of which the first flows to the second.
pub fn two_labels() -> Option<Lattice>
    ensures size { IfSome result (λ o. o.size ≡ 2) }
    ensures flows { IfSome result (λ o. (a b : ℕ) → a < 2 → b < 2 → Flows (lattice_of o) a b ↔ Chain low_below_high a b) }
{
    let low = Name::read(b"L")?;
    let high = Name::read(b"H")?;
    if low.bytes() == high.bytes() {
        return None;
    }
    Lattice::build(&[low, high], &[(LOW, HIGH)]).ok()
}
