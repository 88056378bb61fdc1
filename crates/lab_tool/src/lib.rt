//! The program `lab` over any files and any place for its text.
#![tactic(auto)]

pub mod laws;
mod main_call;

pub use main_call::lab_main;
