//! Spaces of starts: each of some values ranges over so many, and the starts are all the choices, numbered.
#![tactic(auto)]

pub mod laws;
pub mod part;
pub mod space;
