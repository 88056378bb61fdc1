//! The machine that runs are made on.

use tool_words::words::EnvName;

/// The machine that runs are made on: that of an environment by its name, or one that a file describes.
#[derive(Clone, Copy, Debug, PartialEq, Eq)]
pub enum Machine<'a> {
    Named(EnvName),
    Described(&'a str),
}
