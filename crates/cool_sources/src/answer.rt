//! The answer of a task on source files: whether they have errors, the text for the output, and the message.

/// The answer of a task on source files.
#[derive(Drop)]
pub struct Answer {
    /// Whether the files have faults, so that the status is 1.
    pub faulty: bool,
    /// The text for the output.
    pub text: Vec<u8>,
    /// The note, or no byte if there is none.
    pub note: &'static [u8],
}
