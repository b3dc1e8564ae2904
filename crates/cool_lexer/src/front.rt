//! The result of scanning the front of a text: a lexeme, white space or a comment with its size, or a lexical error.

use cool_syntax::{LexKind, TokenKind};

/// The form of a good item.
#[derive(Drop)]
pub(crate) enum Scan {
    Space,
    Comment,
    Lexeme(TokenKind),
}

/// The item that a text begins with, or its fault.
#[derive(Drop)]
pub(crate) enum Front {
    /// A good item with this many bytes after its first.
    Item { form: Scan, after: usize },
    /// A fault that stands this many bytes after the item's first.
    Fault { kind: LexKind, offset: usize },
}
