//! The kinds of lexical errors.

/// The reason why a text has no list of tokens.
#[derive(Clone, Copy)]
pub enum LexKind {
    /// A byte begins no lexeme. Its place is the byte.
    L1,
    /// A string meets a newline without a backslash, or the end of the file. Its place is the opening quote.
    L2,
    /// A string meets a null byte. Its place is the null byte.
    L3,
    /// The constant of a string gets one byte more than `MOST_BYTES`. Its place is the opening quote.
    L4,
    /// The end of the file stands in a block comment. Its place is the outermost `(*`.
    L5,
    /// `*)` stands outside a comment. Its place is the `*`.
    L6,
    /// An integer is above 2147483647. Its place is the first digit.
    L7,
    /// A token of a run comes after `MOST_TOKENS` others. Its place is the token.
    L8,
}
