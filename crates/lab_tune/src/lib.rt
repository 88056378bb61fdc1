//! `tune`: which first prediction of one mitigate is best for the starts of a file.
#![tactic(auto)]

mod best;
pub mod laws;
mod lines;
mod text;
mod told;
pub mod tune;
