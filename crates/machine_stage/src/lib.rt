//! The stage of a machine file: from a file to what makes environments of its machine.
#![tactic(auto)]

pub mod lines;
pub mod machine;
