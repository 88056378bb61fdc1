//! The tables of a labelling.

ghost use Rattle.std.specs.Prelude.{◌≡◌};
ghost use Rattle.timing_types.specs.Labelling.{variable_of, marks_of, level_of};

use crate::expressions::variable_label;
use label_lattice::label::Label;
use label_lattice::lattice::Lattice;
use std::marker::Model;

/// Labels of variables by number, of commands in order of the text, and of mitigates by their marks. A
/// number past the end of a table has bottom.
#[derive(Drop)]
pub struct Labels {
    variables: Vec<Label>,
    commands: Vec<(Label, Label)>,
    levels: Vec<Label>,
}

impl Model for Labels {
    ghost use Rattle.timing_types.specs.Labelling.{Labelling};

    ghost Value = { Labelling };

    ghost use Rattle.timing_types.specs.Kept.{labelling_of};

    ghost view = { labelling_of };
}

impl Labels {
    pub(crate) fn new(
        variables: Vec<Label>,
        commands: Vec<(Label, Label)>,
        levels: Vec<Label>,
    ) -> Labels
        ensures { result ≡ record { variables = variables.items; commands = commands.items; levels = levels.items } }
    {
        Labels {
            variables,
            commands,
            levels,
        }
    }

    /// The labels of variables, by their numbers.
    pub(crate) fn variables(&self) -> &[Label]
        ensures { result.now ≡ self.now.variables }
    {
        &self.variables
    }

    /// The label of a variable.
    pub fn variable(&self, x: u32, order: &Lattice) -> Label
        ensures { result.number ≡ variable_of order.now self.now x }
    {
        variable_label(&self.variables, x, order)
    }

    /// The read label and the write label of a command.
    pub fn command(&self, number: usize, order: &Lattice) -> (Label, Label)
        ensures er { result.0.number ≡ (marks_of order.now self.now number).er }
        ensures ew { result.1.number ≡ (marks_of order.now self.now number).ew }
    {
        match self.commands.get(number) {
            Some(pair) => *pair,
            None => (order.bottom(), order.bottom()),
        }
    }

    /// The level of a mitigate.
    pub fn level(&self, mark: u32, order: &Lattice) -> Label
        ensures { result.number ≡ level_of order.now self.now mark }
    {
        match self.levels.get(mark as usize) {
            Some(level) => *level,
            None => order.bottom(),
        }
    }
}
