//! Classes of bytes: the class of the first byte decides which kind of lexeme, white space or comment is scanned.

ghost use Rattle.std.specs.Prelude.{◌≡◌};
ghost use Rattle.cool_syntax.specs.Lexemes as lexemes;
ghost use Rattle.cool_lexer.specs.Views.{class_seen};

use cool_syntax::Sign;

/// The class of the first byte of an item.
pub(crate) enum Class {
    Capital,
    Small,
    Digit,
    Quote,
    White,
    Dash,
    Star,
    Open,
    Angle,
    Equals,
    Single(Sign),
    Stray,
}

/// The class of a byte. White space is that of Cool (manual, section 10.5).
pub(crate) fn class_of(byte: u8) -> Class
    ensures { class_seen result ≡ lexemes.class_of byte }
{
    match byte {
        b'A'..=b'Z' => Class::Capital,
        b'a'..=b'z' => Class::Small,
        b'0'..=b'9' => Class::Digit,
        b' ' | 9..=13 => Class::White,
        b'"' => Class::Quote,
        b'-' => Class::Dash,
        b'*' => Class::Star,
        b'(' => Class::Open,
        b'<' => Class::Angle,
        b'=' => Class::Equals,
        b'{' => Class::Single(Sign::LBrace),
        b'}' => Class::Single(Sign::RBrace),
        b')' => Class::Single(Sign::RParen),
        b':' => Class::Single(Sign::Colon),
        b';' => Class::Single(Sign::Semi),
        b',' => Class::Single(Sign::Comma),
        b'.' => Class::Single(Sign::Dot),
        b'@' => Class::Single(Sign::At),
        b'~' => Class::Single(Sign::Tilde),
        b'/' => Class::Single(Sign::Slash),
        b'+' => Class::Single(Sign::Plus),
        _ => Class::Stray,
    }
}
