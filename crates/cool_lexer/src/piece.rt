//! The meaning of each byte of a string constant: a character, an escape, the closing quote or an error (manual, section 10.2).

ghost use Rattle.std.specs.Prelude.{◌≡◌};
ghost use Rattle.cool_syntax.specs.Lexemes as lexemes;
ghost use Rattle.cool_lexer.specs.Views.{piece_seen};

/// The meaning of a byte of a string.
pub(crate) enum Piece {
    /// The closing quote.
    Ends,
    /// A newline without a backslash before it.
    Newline,
    /// A null byte.
    Null,
    /// A backslash that stands before a byte.
    Backslash,
    /// It makes this byte of the constant.
    Means(u8),
}

/// The meaning of a byte of a string, after a backslash or not.
pub(crate) fn piece_of(escaped: bool, byte: u8) -> Piece
    ensures { piece_seen result ≡ lexemes.piece escaped byte }
{
    match (escaped, byte) {
        (_, 0) => Piece::Null,
        (true, byte) => Piece::Means(escape(byte)),
        (false, b'"') => Piece::Ends,
        (false, b'\n') => Piece::Newline,
        (false, b'\\') => Piece::Backslash,
        (false, byte) => Piece::Means(byte),
    }
}

/// The byte that a backslash and this byte denote.
fn escape(byte: u8) -> u8
    ensures { result ≡ lexemes.escape byte }
{
    match byte {
        b'b' => 8,
        b't' => 9,
        b'n' => 10,
        b'f' => 12,
        other => other,
    }
}
