//! Labelled programs.

ghost use Rattle.std.specs.Prelude.{◌≡◌, ◌<◌};
ghost use Rattle.mit_syntax.specs.Declarations.{variables};
ghost use Rattle.mit_syntax.specs.Plan.{count, mitigates};
ghost use Rattle.mit_syntax.specs.Program.{plan_of};
ghost use Rattle.timing_types.specs.Labelling.{IsLabelling, variable_of, marks_of, level_of};

use crate::labels::Labels;
use label_lattice::label::Label;
use mit_syntax::program::Program;
use std::marker::Model;

/// A program with a label for each variable, both labels for each command in order of the text, and a
/// level for each mitigate.
#[derive(Drop)]
pub struct Labelled {
    program: Program,
    labels: Labels,
}

impl Model for Labelled {
    ghost use Rattle.timing_types.specs.Labelled.{LabelledProgram};
    ghost use Rattle.mit_syntax.specs.PlanCode.{plan_code};
    ghost use Rattle.std.specs.Coded.{codes};

    ghost Value = { LabelledProgram };

    ghost coded = { Prim.hlevel (codes, plan_code) };

    ghost use Rattle.timing_types.specs.Kept.{labelled_of, IsLabelled};

    ghost view = { labelled_of };

    ghost invariant = { IsLabelled };
}

impl Labelled {
    /// The program with these labels: one for each variable by its number, the read label and the write
    /// label of each command in order of the text, and the level of each mitigate by its mark. What the
    /// program writes is kept, and all labels are labels of its lattice. Takes no memory.
    pub fn of(
        program: Program,
        variables: Vec<Label>,
        commands: Vec<(Label, Label)>,
        levels: Vec<Label>,
    ) -> Labelled
        requires { IsLabelling program (record { variables = variables.items; commands = commands.items; levels = levels.items }) }
        ensures { result ≡ record { program = program; labels = record { variables = variables.items; commands = commands.items; levels = levels.items } } }
    {
        Labelled {
            program,
            labels: Labels::new(variables, commands, levels),
        }
    }

    /// The program.
    pub fn program(&self) -> &Program
        ensures program { result.now ≡ self.now.program }
        ensures labelling { IsLabelling self.now.program self.now.labels }
    {
        &self.program
    }

    /// The label of a variable, whose number is below the program's number of variables.
    pub fn variable_label(&self, x: u32) -> Label
        requires { x < variables self.now.program.declarations }
        ensures value { result.number ≡ variable_of self.now.program.order self.now.labels x }
        ensures within { result.number < self.now.program.order.size }
    {
        self.labels.variable(x, self.program.lattice())
    }

    /// The read label and the write label of a command, whose number is below the program's number of
    /// commands.
    pub fn command_labels(&self, i: u32) -> (Label, Label)
        requires { i < count (plan_of self.now.program) }
        ensures er { result.0.number ≡ (marks_of self.now.program.order self.now.labels i).er }
        ensures ew { result.1.number ≡ (marks_of self.now.program.order self.now.labels i).ew }
        ensures within { (result.0.number < self.now.program.order.size) × (result.1.number < self.now.program.order.size) }
    {
        self.labels.command(i as usize, self.program.lattice())
    }

    /// The level of a mitigate, whose mark is below the program's number of mitigates.
    pub fn level(&self, mark: u32) -> Label
        requires { mark < mitigates (plan_of self.now.program) }
        ensures value { result.number ≡ level_of self.now.program.order self.now.labels mark }
        ensures within { result.number < self.now.program.order.size }
    {
        self.labels.level(mark, self.program.lattice())
    }

    /// All labels.
    pub fn labels(&self) -> &Labels
        ensures { result.now ≡ self.now.labels }
    {
        &self.labels
    }
}
