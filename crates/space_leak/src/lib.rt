//! What `leak` tells of the starts of a space: the classes of their runs, of which none is kept.
#![tactic(auto)]

mod field;
pub mod laws;
pub mod leak;
mod lines;
mod runs;
mod text;
