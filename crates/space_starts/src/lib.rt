//! Spaces of starts: values of which each variable has one, and the starts by their numbers.
#![tactic(auto)]

pub mod apart;
pub mod space;
