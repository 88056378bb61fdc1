//! The stages of commands: each gives a value to the next one, or stops the command with its refusal.
#![tactic(auto)]

pub mod certificate;
pub mod compiled;
pub mod envs;
pub mod file;
pub mod image;
pub mod laws;
pub mod observer;
pub mod prepared;
pub mod program;
pub mod ready;
pub mod setting;
pub mod started;
pub mod starts;
pub mod types;
