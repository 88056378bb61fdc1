//! Where a run takes place.

use crate::envs::Environment;
use tool_words::words::EnvName;

/// The environment and the budget of a run, in cycles.
#[derive(Clone, Copy)]
pub struct Setting {
    pub env: Environment,
    pub budget: u64,
}

/// The same where the environment has a name.
#[derive(Clone, Copy)]
pub struct NamedSetting {
    pub env: EnvName,
    pub budget: u64,
}
