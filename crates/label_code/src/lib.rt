//! The machine's instructions and images.
#![tactic(auto)]

pub mod code;
pub mod cost;
pub mod image;
pub mod laws;
pub mod places;
