//! The sharp count over histories: what an access costs is told by looking back into what was touched.
#![tactic(auto)]

pub mod laws;
