//! What a program and the labels of its variables say of one command, before its line is read.

use label_lattice::label::Label;

/// What a command does, with the labels of what it reads.
#[derive(Clone, Copy, Debug, PartialEq, Eq)]
pub enum Act {
    Skip,
    /// `reads` is the join of `pc` and the labels of all that is read, `target` the label of what is assigned.
    Assign {
        reads: Label,
        target: Label,
    },
    Sleep {
        time: Label,
    },
    If {
        guard: Label,
    },
    While {
        guard: Label,
    },
    Mitigate {
        estimate: Label,
        level: Option<Label>,
    },
}

/// Where a command's start label comes from.
#[derive(Clone, Copy, Debug, PartialEq, Eq)]
pub enum Start {
    /// The command is the first of the program.
    First,
    /// It follows the command with this number in its list.
    After(usize),
    /// It is the first in a part of the `if` or the body of the `mitigate` with this number, which reads a label.
    Within { whole: usize, reads: Label },
    /// It is the first in the body of the `while` with this number.
    Around(usize),
}

/// What the end label of a command closes.
#[derive(Clone, Copy, Debug, PartialEq, Eq)]
pub enum Close {
    /// Nothing.
    Open,
    /// It is the last of the else list of the `if` with this number, whose then list ends with another command.
    If { whole: usize, then_last: usize },
    /// It is the last in the body of the `while` with this number.
    While(usize),
    /// It is the last in the body of the `mitigate` with this number.
    Mitigate(usize),
}

/// The place of a command: the labels that it writes, its program-counter label, that label joined with the
/// labels of indices, what it does, where it starts and what it closes.
#[derive(Clone, Copy, Debug, PartialEq, Eq)]
pub struct Place {
    pub written: Option<(Label, Label)>,
    pub pc: Label,
    pub here: Label,
    pub act: Act,
    pub start: Start,
    pub close: Close,
}
