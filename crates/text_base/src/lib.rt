//! Positions in a text, and want of memory.
#![tactic(auto)]

pub mod pos;
