//! The type system: which programs are accepted, and the first condition that one breaks.
#![tactic(auto)]

pub mod check;
mod contexts;
pub mod ends;
pub mod expressions;
pub mod labelled;
pub mod labels;
pub mod laws;
pub mod rule;
mod seen;
pub mod typed;
