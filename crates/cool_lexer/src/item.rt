//! Scanning one item (a lexeme, white space or a comment) at the front of a text, by the class of its first byte.

ghost use Rattle.std.specs.Prelude.{◌≡◌, ◌≢◌, ◌<◌, ◌≤◌, ◌∷◌, IfOk, IfSome, None, length};
ghost use Rattle.cool_syntax.specs.Lexemes as lexemes;
ghost use Rattle.cool_syntax.specs.LexicalStructure.{fault};
ghost use Rattle.cool_lexer.specs.Fronts.{front_of, Begins};
ghost use Rattle.cool_lexer.specs.ItemSizes.{BeginsWithItem};

use crate::class::{Class, class_of};
use crate::comment::{dash_at, open_at};
use crate::front::{Front, Scan};
use crate::number::number_at;
use crate::sign::{angle_at, equals_at, sign, star_at};
use crate::string::string_at;
use crate::word::word_at;
use cool_syntax::LexKind;
use std::alloc::{AllocError, Global};

/// The number of bytes of the item (a lexeme, white space or a comment) that a text begins with, or `None` if a fault begins there; the text has a byte.
/// Returns `Err` only if memory runs out.
pub fn item_size(alloc: Global, text: &[u8]) -> Result<Option<usize>, AllocError>
    requires { 0 < length text.now }
    ensures item { IfOk result (λ size. IfSome size (BeginsWithItem text.now)) }
    ensures within { IfOk result (λ size. IfSome size (λ n. n ≤ length text.now)) }
    ensures fault { IfOk result (λ size. size ≡ None → fault text.now ≢ None) }
{
    match item_at(alloc, text)? {
        Front::Item { form: _, after } => Ok(Some(after + 1)),
        Front::Fault { kind: _, offset: _ } => Ok(None),
    }
}

/// The item that a text begins with, or its fault; the text has a byte. Returns `Err` only if memory runs out.
pub(crate) fn item_at(alloc: Global, text: &[u8]) -> Result<Front, AllocError>
    requires { 0 < length text.now }
    ensures { IfOk result (λ front. Begins text.now front) }
{
    item_after(alloc, text, text[0], &text[1..])
}

/// The item that a text begins with, or its fault, by the first byte and those after it. Returns `Err` only if memory runs out.
fn item_after(alloc: Global, text: &[u8], first: u8, tail: &[u8]) -> Result<Front, AllocError>
    requires whole { first ∷ tail.now ≡ text.now }
    ensures { IfOk result (λ front. front ≡ front_of (lexemes.class_of first) first tail.now) }
{
    match class_of(first) {
        Class::Capital | Class::Small => word_at(alloc, text, first, tail),
        Class::Digit => Ok(number_at(first, tail)),
        Class::Quote => string_at(alloc, tail),
        Class::White => Ok(Front::Item {
            form: Scan::Space,
            after: 0,
        }),
        Class::Dash => Ok(dash_at(tail)),
        Class::Star => Ok(star_at(tail)),
        Class::Open => Ok(open_at(tail)),
        Class::Angle => Ok(angle_at(tail)),
        Class::Equals => Ok(equals_at(tail)),
        Class::Single(single) => Ok(sign(single, 0)),
        Class::Stray => Ok(Front::Fault {
            kind: LexKind::L1,
            offset: 0,
        }),
    }
}
