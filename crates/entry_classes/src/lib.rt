//! Classes of starts whose runs have the same entries.
#![tactic(auto)]

pub mod known;
