//! Rules of replacement.

/// Which tag goes where one comes into a set that has no way left: the one that was touched the longest time ago, or the one that came
/// the longest time ago.
#[derive(Clone, Copy, Debug, PartialEq, Eq)]
pub enum Replacement {
    LeastRecent,
    FirstCome,
}
