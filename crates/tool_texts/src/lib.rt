//! The messages of the tool: how a call ended, why a command stops, and every line and text that is written.
#![tactic(auto)]

pub mod finish;
pub mod header;
pub mod lines;
pub mod pieces;
pub mod status;
pub mod stop;
