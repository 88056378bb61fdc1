//! The command `bound` of the lab: what an audit says, and after it the sharp count, what it stands on, the counts by shared
//! time and by own first predictions, and whether they hold of who sees runs end.
#![tactic(auto)]

pub mod bound;
mod end;
pub mod laws;
mod lines;
pub mod own;
pub mod shared;
pub mod shown;
mod text;
