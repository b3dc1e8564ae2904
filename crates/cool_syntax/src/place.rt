//! Source locations: file, line and byte.

/// A place in the files of one command.
///
/// The file is its position in the command, from 0. The line is 1 plus the number of newlines
/// (byte 10) before the place. The byte is the offset in the file, from 0.
#[derive(Clone, Copy, PartialEq, Eq)]
pub struct Place {
    pub file: u32,
    pub line: u32,
    pub byte: u32,
}
