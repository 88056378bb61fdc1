//! `timeline`: what each run from the starts of a file tells of its mitigations, and of all runs together.
#![tactic(auto)]

pub mod laws;
pub mod timeline;
mod walk;
mod write;
