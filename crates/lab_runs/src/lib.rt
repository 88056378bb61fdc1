//! What questions of the lab share: the label that a word names, what an accepted program begins with, and what those need that
//! write a text for each run of a list of starts.
#![tactic(auto)]

pub mod fault;
pub mod label;
pub mod least;
pub mod prepared;
pub mod shown;
