//! From typed programs to images.
#![tactic(auto)]

mod emit;
pub mod laws;
pub mod lower;
mod size;
