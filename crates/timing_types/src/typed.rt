//! Typed programs.

ghost use Rattle.std.specs.Prelude.{◌≡◌, ◌<◌};
ghost use Rattle.mit_syntax.specs.Plan.{mitigates};
ghost use Rattle.mit_syntax.specs.Program.{plan_of};
ghost use Rattle.timing_types.specs.Labelled.{HasType, AreContexts, context_of};

use crate::labelled::Labelled;
use label_lattice::label::Label;
use std::marker::Model;

/// A labelled program that the type system accepts, with the program-counter label of each mitigate.
#[derive(Drop)]
pub struct Typed {
    labelled: Labelled,
    contexts: Vec<Label>,
}

impl Model for Typed {
    ghost use Rattle.timing_types.specs.Labelled.{TypedProgram};
    ghost use Rattle.mit_syntax.specs.PlanCode.{plan_code};
    ghost use Rattle.std.specs.Coded.{codes};

    ghost Value = { TypedProgram };

    ghost coded = { Prim.hlevel (codes, plan_code) };

    ghost use Rattle.timing_types.specs.Kept.{typed_of, IsKeptTyped};

    ghost view = { typed_of };

    ghost invariant = { IsKeptTyped };
}

impl Typed {
    /// The typed program of a labelled one that has a derivation, with the program-counter label of each
    /// mitigate by its mark. Takes no memory.
    pub fn of(p: Labelled, pcs: Vec<Label>) -> Typed
        requires typed { HasType p }
        requires contexts { AreContexts p pcs.items }
        ensures { result ≡ record { labelled = p; contexts = pcs.items } }
    {
        Typed {
            labelled: p,
            contexts: pcs,
        }
    }

    /// The labelled program.
    pub fn labelled(&self) -> &Labelled
        ensures labelled { result.now ≡ self.now.labelled }
        ensures typed { HasType self.now.labelled }
        ensures contexts { AreContexts self.now.labelled self.now.contexts }
    {
        &self.labelled
    }

    /// The program-counter label of a mitigate, whose mark is below the program's number of mitigates: the
    /// join of the labels of the guards around it.
    pub fn mitigate_pc(&self, mark: u32) -> Label
        requires { mark < mitigates (plan_of self.now.labelled.program) }
        ensures value { result.number ≡ context_of self.now mark }
        ensures contexts { AreContexts self.now.labelled self.now.contexts }
    {
        self.contexts[mark as usize]
    }
}
