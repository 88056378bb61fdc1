//! The machine's instructions.

use label_lattice::label::Label;
use mit_syntax::ast::Op;

/// What an instruction does. Variables and targets are numbers; an array is its first element's number and
/// its length.
#[derive(Clone, Copy, Debug, PartialEq, Eq)]
pub enum Work {
    Push(i64),
    Load(u32),
    Store(u32),
    Apply(Op),
    Brz(u32),
    Brnz(u32),
    Jmp(u32),
    Sleep,
    Mitb { level: Label, mark: u32 },
    Mite,
    Nop,
    Halt,
    LoadAt { first: u32, length: u32 },
    StoreAt { first: u32, length: u32 },
}

/// An instruction with its read label and its write label.
#[derive(Clone, Copy, Debug, PartialEq, Eq)]
pub struct Instr {
    pub work: Work,
    pub er: Label,
    pub ew: Label,
}
