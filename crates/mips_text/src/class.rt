//! The class of a byte in assembly: a blank, the begin of a comment, or the kind of token that the byte begins.

ghost use Rattle.std.specs.Prelude.{◌≡◌};
ghost use Rattle.mips_text.specs.Letters.{class_of, start_of};

use crate::letters::{begins_name, is_blank};

/// The kind of word that a byte begins.
#[derive(Clone, Copy)]
pub(crate) enum Start {
    Name,
    /// A number without a sign.
    Digit,
    /// A number below zero.
    Minus,
    Register,
    Text,
    Colon,
    Open,
    Close,
    /// None.
    Stray,
}

/// The class of a byte.
#[derive(Clone, Copy)]
pub(crate) enum Class {
    Blank,
    Comment,
    Word(Start),
}

/// The class of this byte.
pub(crate) fn class_of(byte: u8) -> Class
    ensures { result ≡ class_of byte }
{
    if is_blank(byte) {
        return Class::Blank;
    }
    match byte {
        b'#' => Class::Comment,
        _ => Class::Word(start_of(byte)),
    }
}

/// The kind of word that this byte begins.
fn start_of(byte: u8) -> Start
    ensures { result ≡ start_of byte }
{
    if begins_name(byte) {
        return Start::Name;
    }
    match byte {
        b'0'..=b'9' => Start::Digit,
        b'-' => Start::Minus,
        b'$' => Start::Register,
        b'"' => Start::Text,
        b':' => Start::Colon,
        b'(' => Start::Open,
        b')' => Start::Close,
        _ => Start::Stray,
    }
}
