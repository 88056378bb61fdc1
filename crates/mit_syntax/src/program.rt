//! Programs.

ghost use Rattle.std.specs.Prelude.{◌≡◌, ◌<◌, ◌≤◌};
ghost use Rattle.mit_syntax.specs.Declarations.{cell_at, variables, find_scalar, find_array};
ghost use Rattle.mit_syntax.specs.Plan.{count, mitigates, list_plan};
ghost use Rattle.mit_syntax.specs.Program.{syntax, plan_of};
ghost use Rattle.mit_syntax.specs.Valid.{IsValid};

use crate::ast::Command;
use crate::count::{Counts, count_list};
use crate::declarations::Variables;
use label_lattice::label::Label;
use label_lattice::lattice::Lattice;
use label_lattice::name::Name;
use std::marker::Model;
use std::rc::Rc;

/// A program: its labels, the pairs that give their order, its variables and its commands.
#[derive(Drop)]
pub struct Program {
    lattice: Rc<Lattice>,
    pairs: Vec<(Label, Label)>,
    variables: Variables,
    body: Vec<Command>,
    commands: u32,
    mitigates: u32,
}

impl Model for Program {
    ghost use Rattle.mit_syntax.specs.Program.{Syntax};
    ghost use Rattle.mit_syntax.specs.PlanCode.{plan_code};
    ghost use Rattle.std.specs.Coded.{codes};

    ghost Value = { Syntax };

    ghost coded = { Prim.hlevel (codes, plan_code) };

    ghost use Rattle.mit_syntax.specs.Kept.{syntax_of, IsKept};

    ghost view = { syntax_of };

    ghost invariant = { IsKept };
}

impl Program {
    /// A program of these parts, which are those of a program: takes no memory.
    pub fn of(
        lattice: Rc<Lattice>,
        pairs: Vec<(Label, Label)>,
        variables: Variables,
        body: Vec<Command>,
    ) -> Program
        requires { IsValid (syntax lattice.value pairs.items variables body.items) }
        ensures { result ≡ syntax lattice.value pairs.items variables body.items }
    {
        let Counts {
            commands,
            mitigates,
        } = count_list(&body);
        Program {
            lattice,
            pairs,
            variables,
            body,
            commands,
            mitigates,
        }
    }

    /// Says nothing at run time: what is true of every program.
    pub fn laws(&self)
        ensures valid { IsValid self.now }
        ensures cells { variables self.now.declarations ≤ 3072 }
    {
        let _ = &self.body;
    }

    /// The labels and their order.
    pub fn lattice(&self) -> &Lattice
        ensures { result.now ≡ self.now.order }
    {
        &self.lattice
    }

    /// The same, to be shared.
    pub fn shared_lattice(&self) -> &Rc<Lattice>
        ensures { result.now.value ≡ self.now.order }
    {
        &self.lattice
    }

    /// The pairs of labels, as they are written.
    pub fn pairs(&self) -> &[(Label, Label)]
        ensures { result.now ≡ self.now.pairs }
    {
        &self.pairs
    }

    /// The declarations.
    pub fn declarations(&self) -> &Variables
        ensures { result.now ≡ self.now.declarations }
    {
        &self.variables
    }

    /// How many variables there are, each element of an array counted.
    pub fn variables(&self) -> u32
        ensures value { result ≡ variables self.now.declarations }
        ensures valid { IsValid self.now }
    {
        self.variables.count()
    }

    /// The name of a variable, whose number is below `variables`. An element has its array's name.
    pub fn variable_name(&self, x: u32) -> Name
        requires { x < variables self.now.declarations }
        ensures { result ≡ (cell_at self.now.declarations x).name }
    {
        self.variables.name(x)
    }

    /// The label of a variable, whose number is below `variables`, or `None` where none is written.
    pub fn variable_label(&self, x: u32) -> Option<Label>
        requires { x < variables self.now.declarations }
        ensures { result ≡ (cell_at self.now.declarations x).label }
    {
        self.variables.label(x)
    }

    /// The place in its array of a variable, whose number is below `variables`, or `None` for a scalar.
    pub fn element(&self, x: u32) -> Option<u32>
        requires { x < variables self.now.declarations }
        ensures { result ≡ (cell_at self.now.declarations x).place }
    {
        self.variables.element(x)
    }

    /// The number of the scalar with a name, or `None` where no scalar has it.
    pub fn find_variable(&self, name: &Name) -> Option<u32>
        ensures { result ≡ find_scalar self.now.declarations name.now }
    {
        self.variables.find_variable(name)
    }

    /// The first variable and the length of the array with a name, or `None` where no array has it.
    pub fn find_array(&self, name: &Name) -> Option<(u32, u32)>
        ensures { result ≡ find_array self.now.declarations name.now }
    {
        self.variables.find_array(name)
    }

    /// The commands. There is at least one.
    pub fn body(&self) -> &[Command]
        ensures body { list_plan result.now ≡ plan_of self.now }
        ensures valid { IsValid self.now }
    {
        &self.body
    }

    /// How many commands there are, those inside others included.
    pub fn commands(&self) -> u32
        ensures { result ≡ count (plan_of self.now) }
    {
        self.commands
    }

    /// How many mitigates there are.
    pub fn mitigates(&self) -> u32
        ensures { result ≡ mitigates (plan_of self.now) }
    {
        self.mitigates
    }
}
