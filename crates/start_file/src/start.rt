//! Starts of runs.

use env_contract::place::Touch;

/// How a run begins: a value for each variable, each element of an array counted, and the touches that
/// warm the environment, the earliest first.
#[derive(Drop)]
pub struct Start {
    pub memory: Vec<i64>,
    pub touches: Vec<Touch>,
}
