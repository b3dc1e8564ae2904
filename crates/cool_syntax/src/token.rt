//! Tokens: the lexemes of Cool (manual, section 10) with their source locations.

use crate::{Bytes, Name, Place};

/// A lexeme and the place of its first byte.
#[derive(Drop)]
pub struct Token {
    pub kind: TokenKind,
    pub at: Place,
}

/// A lexeme without its place.
#[derive(Drop)]
pub enum TokenKind {
    Key(Key),
    /// An identifier that begins with a capital letter. `SELF_TYPE` is one.
    TypeId(Name),
    /// An identifier that begins with a small letter. `self` is one.
    ObjectId(Name),
    /// An integer constant, at most 2147483647.
    Int(u32),
    /// The bytes that a string constant denotes.
    Str(Bytes),
    Sign(Sign),
}

/// A keyword.
#[derive(Clone, Copy, PartialEq, Eq)]
pub enum Key {
    Class,
    Else,
    False,
    Fi,
    If,
    In,
    Inherits,
    IsVoid,
    Let,
    Loop,
    Pool,
    Then,
    While,
    Case,
    Esac,
    New,
    Of,
    Not,
    True,
}

/// A lexeme of one or two signs.
#[derive(Clone, Copy, PartialEq, Eq)]
pub enum Sign {
    LBrace,
    RBrace,
    LParen,
    RParen,
    Colon,
    Semi,
    Comma,
    Dot,
    At,
    Tilde,
    Star,
    Slash,
    Plus,
    Minus,
    LessEqual,
    Less,
    Equal,
    /// `<-`
    Arrow,
    /// `=>`
    FatArrow,
}
