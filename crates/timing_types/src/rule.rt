ghost use Rattle.std.specs.Prelude.{◌≡◌, ◌≤◌, length};
ghost use Rattle.timing_types.specs.Rules.{rule_name};

use label_lattice::label::Label;
use text_base::pos::Pos;

/// A rule of the type system.
#[derive(Clone, Copy, Debug, PartialEq, Eq)]
pub enum Rule {
    Skip,
    Asgn,
    If,
    While,
    Mtg,
    Sleep,
}

impl Rule {
    /// Its name, as in a refusal and in a certificate.
    pub fn name(self) -> &'static [u8]
        ensures name { result.now ≡ rule_name self }
        ensures short { length result.now ≤ 7 }
    {
        match self {
            Rule::Skip => b"T-SKIP",
            Rule::Asgn => b"T-ASGN",
            Rule::If => b"T-IF",
            Rule::While => b"T-WHILE",
            Rule::Mtg => b"T-MTG",
            Rule::Sleep => b"T-SLEEP",
        }
    }
}

/// Why a labelled program has no type.
#[derive(Clone, Copy, Debug, PartialEq, Eq)]
pub enum TypeFault {
    /// A condition is broken: `have` does not flow to `allowed`. The position is that of the command's
    /// first token.
    Refused {
        rule: Rule,
        pos: Pos,
        have: Label,
        allowed: Label,
    },
    /// Want of memory.
    Memory,
}
