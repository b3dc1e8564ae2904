//! Edits: a file, a range of its bytes, and the bytes that replace this range.

/// Bytes in the place of those from `start` up to `end` of the file of this number.
#[derive(Drop)]
pub struct Edit {
    pub file: u32,
    pub start: usize,
    pub end: usize,
    pub text: Vec<u8>,
}
