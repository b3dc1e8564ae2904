//! Scanning integer constants (manual, section 10.1).

ghost use Rattle.std.specs.Prelude.{◌≡◌, ◌+◌, ◌-◌, ◌*◌, ◌≤◌};
ghost use Rattle.std.specs.List.{fold};
ghost use Rattle.cool_lexer.specs.Fronts.{number_front, within_limit};

use crate::front::{Front, Scan};
use crate::span::{Span, span_len};
use cool_syntax::{LexKind, TokenKind};

/// The most that an integer constant denotes.
const MOST: u64 = 2_147_483_647;

/// The integer that begins with this digit, or `L7`.
pub(crate) fn number_at(first: u8, tail: &[u8]) -> Front
    ensures { result ≡ number_front first tail.now }
{
    let after = span_len(Span::Digits, tail);
    match value(u64::from(digit(first)), &tail[..after]) {
        Some(value) => Front::Item {
            form: Scan::Lexeme(TokenKind::Int(value)),
            after,
        },
        None => Front::Fault {
            kind: LexKind::L7,
            offset: 0,
        },
    }
}

/// The value of a digit.
fn digit(byte: u8) -> u8
    ensures { result ≡ byte - 48 }
{
    byte.saturating_sub(b'0')
}

/// The number that the digits make after those of `high`; `None` where it is above `MOST`.
fn value(high: u64, digits: &[u8]) -> Option<u32>
    requires { high ≤ 255 }
    ensures { result ≡ within_limit (fold (λ n b. 10 * n + (b - 48)) high digits.now) }
{
    let mut value = high;
    for byte in digits {
        value = 10 * value + u64::from(digit(*byte));
        if value > MOST {
            return None;
        }
    }
    Some(value as u32)
}
