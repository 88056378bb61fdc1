//! Words that spell a program are not refused, and the canonical text of a program reads back as the program.
#![tactic(auto)]

pub mod laws;
