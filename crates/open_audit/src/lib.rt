//! An audit of a list of starts of a program with labels, whether or not they type it: whether the starts agree, and which
//! runs show the observer the same. Of their number no bound is told.
#![tactic(auto)]

pub mod audit;
mod runs;
