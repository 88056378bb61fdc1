//! Derivations as texts: what a certificate is, how its lines are written, and how one is checked again, line by
//! line and without inference.
#![tactic(auto)]

pub mod certificate;
mod demands;
pub mod derive;
pub mod fault;
pub mod laws;
pub mod line;
pub mod place;
mod places;
mod read;
pub mod recheck;
pub mod write;
