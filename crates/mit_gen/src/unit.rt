//! The commands that made programs are made of.

ghost use Rattle.std.specs.Prelude.{◌≡◌, ◌<◌, ◌++◌, OnOk, string_bytes};
ghost use Rattle.mit_gen.specs.Made.{kind_of, unit_text};

use std::alloc::AllocError;

/// What a unit does.
#[derive(Clone, Copy, Debug, PartialEq, Eq)]
pub enum Kind {
    /// Adds to a variable of label L.
    Sum,
    /// Assigns to a variable of label H under a mitigate.
    Masked,
    /// Counts a variable of label H down under a mitigate.
    Countdown,
    /// Branches on a variable of label L.
    Choice,
}

/// One command: what it does, the numbers of two variables from 0 to 3, and a number from 0 to 99.
#[derive(Clone, Copy, Debug, PartialEq, Eq)]
pub struct Unit {
    pub kind: Kind,
    pub a: u32,
    pub b: u32,
    pub c: u32,
}

/// The kind that a draw chooses.
pub fn kind_of(draw: u32) -> Kind
    ensures { result ≡ kind_of draw }
{
    match draw % 4 {
        0 => Kind::Sum,
        1 => Kind::Masked,
        2 => Kind::Countdown,
        _ => Kind::Choice,
    }
}

/// Appends the text of a unit, whose `c` is below 100.
pub fn put_unit(text: &mut String, unit: Unit) -> Result<(), AllocError>
    requires { unit.c < 100 }
    ensures { OnOk result (string_bytes text.new ≡ string_bytes text.old ++ unit_text unit) }
{
    let Unit { kind, a, b, c } = unit;
    let d = c + 1;
    match kind {
        Kind::Sum => write!(text, "l{a} := l{b} + {c}"),
        Kind::Masked => write!(text, "mitigate ({d}, H) {{ h{a} := (h{b} + {c}) % 16 }}"),
        Kind::Countdown => write!(
            text,
            "mitigate ({d}, H) {{ while h{a} > 0 do {{ h{a} := h{a} - 1 }} }}"
        ),
        Kind::Choice => write!(
            text,
            "if l{a} > {c} then {{ l{b} := l{a} - {c} }} else {{ l{a} := l{a} + 1 }}"
        ),
    }
}
