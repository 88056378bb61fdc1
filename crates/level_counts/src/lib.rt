//! What the runs of a program begin: for each level, how many mitigations that are relevant to an observer, and the least
//! of their first predictions, and these predictions by their places.
#![tactic(auto)]

pub mod apart;
mod estimates;
pub mod firsts;
pub mod levels;
mod note;
mod run;
