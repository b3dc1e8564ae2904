//! Scanning string constants (manual, section 10.2).

ghost use Rattle.std.specs.Prelude.{◌≡◌, false, [], IfOk};
ghost use Rattle.cool_syntax.specs.declared.token.TokenKind.TheVariants.{Str};
ghost use Rattle.cool_lexer.specs.declared.front.Front.TheVariants.{Item, Fault};
ghost use Rattle.cool_lexer.specs.declared.front.Scan.TheVariants.{Lexeme};
ghost use Rattle.cool_lexer.specs.Fronts.{string_front};

use crate::front::{Front, Scan};
use crate::piece::{Piece, piece_of};
use cool_syntax::{Bytes, LexKind, MOST_BYTES, TokenKind};
use std::alloc::{AllocError, Global};

/// The string after an opening quote, or `L2`, `L3` or `L4`. Returns `Err` only if memory runs out.
pub(crate) fn string_at(alloc: Global, tail: &[u8]) -> Result<Front, AllocError>
    ensures { IfOk result (λ front. front ≡ string_front false 1 [] tail.now) }
{
    let mut held = Vec::new(alloc);
    let mut escaped = false;
    let mut at = 0;
    while at < tail.len() {
        match piece_of(escaped, tail[at]) {
            Piece::Ends => return Ok(string(held, at + 1)),
            Piece::Newline => return Ok(Front::Fault {
                kind: LexKind::L2,
                offset: 0,
            }),
            Piece::Null => return Ok(Front::Fault {
                kind: LexKind::L3,
                offset: at + 1,
            }),
            Piece::Backslash => escaped = true,
            Piece::Means(byte) => {
                if held.len() == MOST_BYTES {
                    return Ok(Front::Fault {
                        kind: LexKind::L4,
                        offset: 0,
                    });
                }
                held.push(byte)?;
                escaped = false;
            }
        }
        at += 1;
    }
    Ok(Front::Fault {
        kind: LexKind::L2,
        offset: 0,
    })
}

/// The string with this constant, whose closing quote stands this many bytes after the opening one.
fn string(held: Vec<u8>, after: usize) -> Front
    ensures { result ≡ Item (Lexeme (Str held.items)) after }
{
    Front::Item {
        form: Scan::Lexeme(TokenKind::Str(Bytes::from_vec(held))),
        after,
    }
}
