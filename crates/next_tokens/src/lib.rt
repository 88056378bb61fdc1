//! Which tokens can stand at a place of a text.
#![tactic(auto)]

mod part;
pub mod reach;
pub mod sort;
mod stack;
