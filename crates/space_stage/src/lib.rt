//! The stages from a start file: to a list of starts or to a space of them, and to the starts of either, written out.
#![tactic(auto)]

pub mod given;
mod lines;
pub mod listed;
