//! The text of a run: its assignments, one a line, and how it ended.
#![tactic(auto)]

pub mod cells;
mod lines;
pub mod print;
pub mod shown;
