//! Runs over caches are runs over histories of touches, and the main theorem over histories: what an access costs is told
//! by looking back into what was touched.
#![tactic(auto)]

pub mod laws;
