//! Laws of made programs: what their text says, the program that it spells, and the starts of that.
#![tactic(auto)]

pub mod program;
pub mod starts;
pub mod words;
