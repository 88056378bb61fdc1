//! What the program `lab` tells in place of the tool's own: a usage text.
#![tactic(auto)]

pub mod usage;
