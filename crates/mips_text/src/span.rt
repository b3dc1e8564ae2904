//! Counting the bytes at the front of a text that continue a name, a register or a comment.

ghost use Rattle.std.specs.Prelude.{◌≡◌, ◌≤◌, length};
ghost use Rattle.std.specs.List.{prefix_len};
ghost use Rattle.mips_text.specs.Fronts.{takes};

use crate::letters::{continues_name, continues_register};

/// The kinds of bytes that a span takes.
#[derive(Clone, Copy)]
pub(crate) enum Span {
    /// The bytes after the first byte of a name.
    Name,
    /// The bytes after the `$` of a register.
    Register,
    Digits,
    HexDigits,
    /// All bytes but a newline.
    Line,
}

impl Span {
    /// Whether the span takes this byte.
    fn takes(self, byte: u8) -> bool
        ensures { result ≡ takes self byte }
    {
        match self {
            Span::Name => continues_name(byte),
            Span::Register => continues_register(byte),
            Span::Digits => byte.is_ascii_digit(),
            Span::Line => byte != b'\n',
            Span::HexDigits => matches!(byte, b'0'..=b'9' | b'A'..=b'F' | b'a'..=b'f'),
        }
    }
}

/// The number of bytes that the span takes from the front of the text on.
pub(crate) fn span_len(span: Span, text: &[u8]) -> usize
    ensures len { result ≡ prefix_len (takes span) text.now }
    ensures within { result ≤ length text.now }
{
    let mut len = 0;
    while len < text.len() && span.takes(text[len]) {
        len += 1;
    }
    len
}
