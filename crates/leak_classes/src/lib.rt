//! Classes of starts whose runs show the same: what is kept of any number of runs.
#![tactic(auto)]

pub mod fault;
pub mod known;
