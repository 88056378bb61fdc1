//! The lines that tell a chain of reasons.
#![tactic(auto)]

pub mod lines;
pub mod places;
pub mod print;
pub mod words;
