//! An answer that is made before it is written.

use tool_texts::status::Status;

/// A status, and the text that is written with it.
#[derive(Drop)]
pub(crate) struct Answer {
    pub(crate) status: Status,
    pub(crate) text: Vec<u8>,
}
