//! The trees of a program.

use label_lattice::label::Label;
use text_base::pos::Pos;

/// An operator on signed numbers of 64 bits.
#[derive(Clone, Copy, Debug, PartialEq, Eq)]
pub enum Op {
    Add,
    Sub,
    Mul,
    Div,
    Rem,
    Eq,
    Ne,
    Lt,
    Le,
    Gt,
    Ge,
}

/// An expression. Variables have numbers; an array is its first element's number and its length.
#[derive(Drop)]
pub enum Expr {
    Number(i64),
    Variable(u32),
    Binary(Op, Box<Expr>, Box<Expr>),
    Element {
        first: u32,
        length: u32,
        index: Box<Expr>,
    },
}

/// A command: where its first token stands, the read label and the write label that it writes, and
/// what it does.
#[cycle(command)]
#[derive(Drop)]
pub struct Command {
    pub pos: Pos,
    pub labels: Option<(Label, Label)>,
    pub form: Form,
}

/// What a command does.
#[cycle(command)]
#[derive(Drop)]
pub enum Form {
    Skip,
    Assign {
        variable: u32,
        value: Expr,
    },
    Put {
        first: u32,
        length: u32,
        index: Expr,
        value: Expr,
    },
    Sleep {
        time: Expr,
    },
    If {
        guard: Expr,
        then_part: Vec<Command>,
        else_part: Vec<Command>,
    },
    While {
        guard: Expr,
        body: Vec<Command>,
    },
    Mitigate {
        mark: u32,
        estimate: Expr,
        level: Option<Label>,
        body: Vec<Command>,
    },
}
