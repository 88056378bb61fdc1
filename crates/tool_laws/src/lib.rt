//! Laws of the tool at work: a run and an audit by the top call, with the one answer that each has, and the premises of
//! the theorem met.
#![tactic(auto)]

pub mod first_audit;
pub mod first_run;
