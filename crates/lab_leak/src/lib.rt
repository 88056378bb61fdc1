//! The question `leak` of the lab: the classes of runs that show an observer the same, and what these tell of the starts.
#![tactic(auto)]

mod head;
pub mod laws;
pub mod leak;
mod lines;
mod open;
mod sheet;
mod sizes;
mod text;
