//! `seen`: what an observer sees of each run from the starts of a file, a line for each.
#![tactic(auto)]

pub mod laws;
pub mod line;
pub mod load;
pub mod seen;
mod walk;
