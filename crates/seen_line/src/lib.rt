//! What an observer sees of a run, as one field of a line.
#![tactic(auto)]

mod items;
pub mod laws;
mod turns;
pub mod write;

pub use event_print::cells as cells;
