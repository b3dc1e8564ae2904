//! Scanning signs, the operators and punctuation of one or two bytes (manual, figure 1), by the bytes after the first.

ghost use Rattle.std.specs.Prelude.{◌≡◌};
ghost use Rattle.cool_lexer.specs.Fronts.{angle_front, equals_front, star_front, single_front};

use crate::front::{Front, Scan};
use cool_syntax::{LexKind, Sign, TokenKind};

/// The sign with this many bytes after its first.
pub(crate) fn sign(sign: Sign, after: usize) -> Front
    ensures { result ≡ single_front sign after }
{
    Front::Item {
        form: Scan::Lexeme(TokenKind::Sign(sign)),
        after,
    }
}

/// The sign that `<` begins: `<=`, `<-` or `<`.
pub(crate) fn angle_at(tail: &[u8]) -> Front
    ensures { result ≡ angle_front tail.now }
{
    match tail {
        [b'=', ..] => sign(Sign::LessEqual, 1),
        [b'-', ..] => sign(Sign::Arrow, 1),
        _ => sign(Sign::Less, 0),
    }
}

/// The sign that `=` begins: `=>` or `=`.
pub(crate) fn equals_at(tail: &[u8]) -> Front
    ensures { result ≡ equals_front tail.now }
{
    match tail {
        [b'>', ..] => sign(Sign::FatArrow, 1),
        _ => sign(Sign::Equal, 0),
    }
}

/// The item that `*` begins: the sign, or `L6` for the end of a comment that is not open.
pub(crate) fn star_at(tail: &[u8]) -> Front
    ensures { result ≡ star_front tail.now }
{
    match tail {
        [b')', ..] => Front::Fault {
            kind: LexKind::L6,
            offset: 0,
        },
        _ => sign(Sign::Star, 0),
    }
}
