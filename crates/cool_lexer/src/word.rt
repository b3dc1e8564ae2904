//! Scanning words: keywords and identifiers (manual, sections 10.1 and 10.4).

ghost use Rattle.std.specs.Prelude.{◌≡◌, ◌∷◌, IfOk, map};
ghost use Rattle.cool_syntax.specs.Lexemes.{lower, key_among, keywords, named, is_truth};
ghost use Rattle.cool_lexer.specs.Fronts.{word_front};

use crate::front::{Front, Scan};
use crate::span::{Span, span_len};
use cool_syntax::{Key, Name, TokenKind};
use std::alloc::{AllocError, Global};

/// The most bytes of a keyword.
const LONGEST: usize = 8;

/// The word that a text begins with: this letter, and the bytes after it that continue it. Returns `Err` only if memory runs out.
pub(crate) fn word_at(
    alloc: Global,
    text: &[u8],
    first: u8,
    tail: &[u8],
) -> Result<Front, AllocError>
    requires whole { first ∷ tail.now ≡ text.now }
    ensures { IfOk result (λ front. front ≡ word_front first tail.now) }
{
    let after = span_len(Span::Word, tail);
    let kind = word(alloc, first.is_ascii_uppercase(), &text[..after + 1])?;
    Ok(Front::Item {
        form: Scan::Lexeme(kind),
        after,
    })
}

/// The lexeme that a word is, which begins with a capital letter or not: `true` and `false` begin with a small letter, and all other keywords have letters
/// of any case. Returns `Err` only if memory runs out.
fn word(alloc: Global, capital: bool, text: &[u8]) -> Result<TokenKind, AllocError>
    ensures { IfOk result (λ kind. kind ≡ named capital text.now (key_among keywords (map lower text.now))) }
{
    match keyword_in_any_case(text) {
        Some(key) if !capital || !is_truth(key) => Ok(TokenKind::Key(key)),
        _ if capital => Ok(TokenKind::TypeId(Name::new(alloc, text)?)),
        _ => Ok(TokenKind::ObjectId(Name::new(alloc, text)?)),
    }
}

/// The keyword that a word is, where capital letters count as small ones.
#[tactic(auto, using(crate::proofs::Keywords::lowered, crate::proofs::Keywords::none_longer))]
fn keyword_in_any_case(text: &[u8]) -> Option<Key>
    ensures { result ≡ key_among keywords (map lower text.now) }
{
    if text.len() > LONGEST {
        return None;
    }
    let mut small = [0; LONGEST];
    let small = &mut small[..text.len()];
    small.copy_from_slice(text);
    small.make_ascii_lowercase();
    keyword(small)
}

/// Whether the key is `true` or `false`.
fn is_truth(key: Key) -> bool
    ensures { result ≡ is_truth key }
{
    matches!(key, Key::True | Key::False)
}

/// The keyword with this spelling, in small letters.
#[tactic(auto, using(crate::proofs::Keywords::none_of_seven, crate::proofs::Keywords::none_above_eight, crate::proofs::Keywords::one_of_six))]
fn keyword(word: &[u8]) -> Option<Key>
    ensures { result ≡ key_among keywords word.now }
{
    match word {
        b"class" => Some(Key::Class),
        b"else" => Some(Key::Else),
        b"false" => Some(Key::False),
        b"fi" => Some(Key::Fi),
        b"if" => Some(Key::If),
        b"in" => Some(Key::In),
        b"inherits" => Some(Key::Inherits),
        b"isvoid" => Some(Key::IsVoid),
        b"let" => Some(Key::Let),
        b"loop" => Some(Key::Loop),
        b"pool" => Some(Key::Pool),
        b"then" => Some(Key::Then),
        b"while" => Some(Key::While),
        b"case" => Some(Key::Case),
        b"esac" => Some(Key::Esac),
        b"new" => Some(Key::New),
        b"of" => Some(Key::Of),
        b"not" => Some(Key::Not),
        b"true" => Some(Key::True),
        _ => None,
    }
}
