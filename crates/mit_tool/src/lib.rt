//! The tool `mitigate` over any files and any place for its text.
#![tactic(auto)]

mod commands;
pub mod laws;
mod main_call;

pub use main_call::mitigate_main;
