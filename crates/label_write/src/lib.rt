//! Programs with all labels of a labelling written, and their canonical text.
#![tactic(auto)]

mod commands;
mod declarations;
mod expressions;
pub mod write;
