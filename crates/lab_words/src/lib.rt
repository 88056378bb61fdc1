//! The words of the command line of `lab`, the question that they ask, and what is told of commands and of words that ask
//! for nothing.
#![tactic(auto)]

mod forms;
pub mod help;
mod lines;
mod loose;
pub mod machine;
pub mod question;
mod readers;
pub mod refusal;
pub mod verbs;
