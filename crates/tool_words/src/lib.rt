//! The words of a command line: what they ask for, and the pieces from which forms of commands are made.
#![tactic(auto)]

pub mod forms;
pub mod readers;
pub mod values;
mod verbs;
pub mod words;
