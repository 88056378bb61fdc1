//! The runs of a program from all starts of a space, one after another: whether the starts agree for an observer, and the
//! classes of starts whose runs show the same.
#![tactic(auto)]

pub mod agreement;
mod shown;
pub mod walk;
