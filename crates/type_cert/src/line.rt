//! The line of a command.

use label_lattice::label::Label;
use timing_types::rule::Rule;

/// What a certificate says of one command: the rule that types it, the program-counter label, the start label,
/// the read label and the write label, the end label, and the level of a mitigate.
#[derive(Clone, Copy, Debug, PartialEq, Eq)]
pub struct Line {
    pub rule: Rule,
    pub pc: Label,
    pub start: Label,
    pub read: Label,
    pub write: Label,
    pub end: Label,
    pub level: Option<Label>,
}
