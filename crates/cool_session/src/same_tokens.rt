//! Compares tokens, ignoring source locations.

ghost use Rattle.std.specs.Prelude.{◌≡◌, ◌↔◌, IsTrue};
ghost use Rattle.cool_session.specs.FeatureTokens.{kinds};

use cool_syntax::{Token, TokenKind};

/// Whether tokens differ in nothing but places.
pub(crate) fn same_tokens(a: &[Token], b: &[Token]) -> bool
    ensures same { IsTrue result ↔ (kinds a.now ≡ kinds b.now) }
{
    if a.len() != b.len() {
        return false;
    }
    for i in 0..a.len() {
        if !same_kind(&a[i].kind, &b[i].kind) {
            return false;
        }
    }
    true
}

/// Whether two lexemes are one.
pub(crate) fn same_kind(a: &TokenKind, b: &TokenKind) -> bool
    ensures same { IsTrue result ↔ (a.now ≡ b.now) }
{
    match (a, b) {
        (TokenKind::Key(k), TokenKind::Key(l)) => k == l,
        (TokenKind::TypeId(m), TokenKind::TypeId(n)) => m.as_slice() == n.as_slice(),
        (TokenKind::ObjectId(m), TokenKind::ObjectId(n)) => m.as_slice() == n.as_slice(),
        (TokenKind::Int(m), TokenKind::Int(n)) => m == n,
        (TokenKind::Str(v), TokenKind::Str(w)) => v.as_slice() == w.as_slice(),
        (TokenKind::Sign(s), TokenKind::Sign(t)) => s == t,
        _ => false,
    }
}
