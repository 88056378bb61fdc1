//! The untimed meaning of programs: one step after another.
#![tactic(auto)]

mod frames;
pub mod laws;
mod obey;
pub mod value;
pub mod walk;
pub mod walker;
