//! `Form` is the output format of explanations: text for people, or lines for other programs.

/// In which form explanations are written.
#[derive(Clone, Copy)]
pub enum Form {
    /// The text for readers.
    Text,
    /// The lines for programs.
    Lines,
}
