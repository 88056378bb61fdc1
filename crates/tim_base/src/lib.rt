//! Files that are read, places where bytes go, and a printed line. Files and
//! places for bytes each have a count of their faults, which never falls.
#![tactic(auto)]

mod count;
pub mod line;
pub mod shelf;
pub mod sink;
