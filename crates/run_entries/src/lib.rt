//! What a run does and what it costs, the waits of its mitigations left out, and the same run under other first predictions.
#![tactic(auto)]

pub mod entry;
pub mod event;
pub mod replay;
