//! What chains cost.

ghost use Rattle.std.specs.Prelude.{◌≡◌, ◌<◌, ◌≤◌, true, false};
ghost use Rattle.flow_path.specs.Chains.{is_faint};
ghost use Rattle.flow_path.specs.Costs.{nothing_yet, add, IsLe, IsLess};

use crate::step::How;

/// What a chain costs: how many of its steps are faint, and how many steps it has.
#[derive(Clone, Copy)]
pub(crate) struct Cost {
    pub(crate) faint: usize,
    pub(crate) steps: usize,
}

/// Whether a step says only that its command comes after an assignment, or after a command with a written read
/// label.
pub(crate) fn is_faint(how: How) -> bool
    ensures { result ≡ is_faint how }
{
    match how {
        How::Reads | How::ReadsInIndex | How::HasReadLabel | How::UnderGuard | How::AfterReading =>
            false,
        How::AfterComputing | How::AfterReadLabel | How::AfterAssigning => true,
    }
}

impl Cost {
    /// The cost of no steps.
    pub(crate) fn nothing_yet() -> Cost
        ensures { result ≡ nothing_yet }
    {
        Cost { faint: 0, steps: 0 }
    }

    /// The cost with one step more before.
    pub(crate) fn add(self, how: How) -> Cost
        requires few { self.steps < 18446744073709551615 }
        requires faint { self.faint ≤ self.steps }
        ensures { result ≡ add self how }
    {
        if is_faint(how) {
            Cost {
                faint: 1 + self.faint,
                steps: 1 + self.steps,
            }
        } else {
            Cost {
                faint: self.faint,
                steps: 1 + self.steps,
            }
        }
    }

    /// Whether it costs less than another; else that one costs no more.
    pub(crate) fn is_less(self, other: Cost) -> bool
        ensures less { result ≡ true → IsLess self other }
        ensures le { result ≡ false → IsLe other self }
    {
        if self.faint == other.faint {
            self.steps < other.steps
        } else {
            self.faint < other.faint
        }
    }

    /// Whether it costs as much as another.
    pub(crate) fn is_same(self, other: Cost) -> bool
        ensures same { result ≡ true → self ≡ other }
        ensures other { result ≡ false → self ≡ other → ⊥ }
    {
        self.faint == other.faint && self.steps == other.steps
    }

    /// Whether it costs less than another; else that one costs no more.
    pub(crate) fn is_below(self, other: Cost) -> bool
        ensures below { result ≡ true → IsLe self other }
        ensures above { result ≡ false → IsLe other self }
    {
        self.is_less(other)
    }
}
