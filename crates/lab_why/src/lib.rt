//! The question `why`: whether a program is accepted, and if not, by which chain of conditions its labels can't hold, or what is wrong
//! with its text; and by which chains a label comes from those that are written.
#![tactic(auto)]

mod explained;
pub mod faulty;
pub mod laws;
mod names;
pub mod of;
pub mod origins;
pub mod refused;
pub mod source;
pub mod starts;
pub mod why;
