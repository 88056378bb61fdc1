//! The text of an image.
#![tactic(auto)]

mod instr;
mod operand;
pub mod print;
mod words;
