//! What a step of a run does that its time hangs on, or that is seen.

ghost use Rattle.std.specs.Prelude.{◌<◌, ◌++◌};
ghost use Rattle.std.specs.Hash as fed;
ghost use Rattle.std.specs.Cmp.Rules.{hashing};
ghost use Rattle.std.proofs.Common.{rules};
ghost use Rattle.label_lattice.specs.Order.{most_labels};

use label_lattice::label::Label;
use std::hash::{Hash, Hasher};

/// A mitigation that begins: its estimate, its level, and its mark.
#[derive(Clone, Copy, PartialEq, Eq)]
pub struct Opening {
    pub estimate: i64,
    pub level: Label,
    pub mark: u32,
    ghost known: { level.number < most_labels },
}

impl Hash for Opening {
    ghost hash_input = { λ x. fed.i64 x.estimate ++ fed.u8 x.level.number ++ fed.u32 x.mark };

    ghost respects_eq = { Prim.search (hashing, rules) };

    fn hash<H: Hasher>(&self, state: &mut H) {
        self.estimate.hash(state);
        self.level.number().hash(state);
        self.mark.hash(state);
    }
}

/// An open mitigation: its estimate, its level, its mark, and the clock when it began.
#[derive(Clone, Copy)]
pub struct Begun {
    pub estimate: i64,
    pub level: Label,
    pub mark: u32,
    pub since: u64,
    ghost known: { level.number < most_labels },
}

/// What a step does that its time hangs on, or that is seen.
#[derive(Clone, Copy, PartialEq, Eq, Hash)]
pub enum Deed {
    /// None of these.
    Nothing,
    /// A number was pushed by the instruction at this place.
    Pushed(u32),
    /// A variable got a value.
    Assigned { variable: u32, value: i64 },
    /// A mitigation began.
    Opens(Opening),
    /// The mitigation that began last ended.
    Closes,
}

/// Steps by what the last of them does, and the cycles of all of them, those that a mitigation waits left out.
#[derive(Clone, Copy, PartialEq, Eq, Hash)]
pub struct Entry {
    pub cost: u64,
    pub deed: Deed,
}
