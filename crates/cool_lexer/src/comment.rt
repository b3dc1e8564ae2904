//! Scanning comments (manual, section 10.3), and the operators and parentheses that begin with the same byte.

ghost use Rattle.std.specs.Prelude.{◌≡◌, ◌<◌, ◌≤◌, IfSome, drop, length};
ghost use Rattle.cool_syntax.specs.Lexemes as lexemes;
ghost use Rattle.cool_lexer.specs.Views.{mark_seen};
ghost use Rattle.cool_lexer.specs.Fronts.{dash_front, open_front};

use crate::front::{Front, Scan};
use crate::sign::sign;
use crate::span::{Span, span_len};
use cool_syntax::{LexKind, Sign};

/// The item that `-` begins: a comment up to the end of the line, or the sign.
pub(crate) fn dash_at(tail: &[u8]) -> Front
    ensures { result ≡ dash_front tail.now }
{
    match tail {
        [b'-', line @ ..] => Front::Item {
            form: Scan::Comment,
            after: 1 + span_len(Span::Line, line),
        },
        _ => sign(Sign::Minus, 0),
    }
}

/// The item that `(` begins: a block comment, `L5` if it is never closed, or the sign.
pub(crate) fn open_at(tail: &[u8]) -> Front
    ensures { result ≡ open_front tail.now }
{
    match tail {
        [b'*', inside @ ..] => match comment_len(inside) {
            Some(len) => Front::Item {
                form: Scan::Comment,
                after: 1 + len,
            },
            None => Front::Fault {
                kind: LexKind::L5,
                offset: 0,
            },
        },
        _ => sign(Sign::LParen, 0),
    }
}

/// The number of bytes inside a block comment, its `*)` included; `None` if it is never closed. Comments nest.
fn comment_len(inside: &[u8]) -> Option<usize>
    ensures len { result ≡ lexemes.comment_size 1 0 inside.now }
    ensures within { IfSome result (λ len. len ≤ length inside.now) }
{
    let mut depth: usize = 1;
    let mut at = 0;
    while at < inside.len() {
        match mark_at(inside, at) {
            Mark::Opens => {
                depth += 1;
                at += 2;
            }
            Mark::Closes if depth == 1 => return Some(at + 2),
            Mark::Closes => {
                depth -= 1;
                at += 2;
            }
            Mark::Plain => at += 1,
        }
    }
    None
}

/// The mark that a text inside a block comment begins with.
enum Mark {
    Opens,
    Closes,
    Plain,
}

/// The mark that stands at this index.
fn mark_at(text: &[u8], at: usize) -> Mark
    requires { at < length text.now }
    ensures { mark_seen result ≡ lexemes.mark (drop at text.now) }
{
    if at + 1 == text.len() {
        return Mark::Plain;
    }
    match (text[at], text[at + 1]) {
        (b'(', b'*') => Mark::Opens,
        (b'*', b')') => Mark::Closes,
        _ => Mark::Plain,
    }
}
