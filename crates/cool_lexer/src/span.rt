//! Counting the bytes at the front of a text that continue a word, a number or a line comment.

ghost use Rattle.std.specs.Prelude.{◌≡◌, ◌≤◌, length};
ghost use Rattle.std.specs.List.{prefix_len};
ghost use Rattle.cool_lexer.specs.Fronts.{takes};

/// The bytes that a span takes.
#[derive(Clone, Copy)]
pub(crate) enum Span {
    /// Letters, digits and underscores.
    Word,
    /// Decimal digits.
    Digits,
    /// All bytes but a newline.
    Line,
}

impl Span {
    /// Whether the span takes this byte.
    fn takes(self, byte: u8) -> bool
        ensures { result ≡ takes self byte }
    {
        match self {
            Span::Word => matches!(byte, b'A'..=b'Z' | b'a'..=b'z' | b'0'..=b'9' | b'_'),
            Span::Digits => matches!(byte, b'0'..=b'9'),
            Span::Line => byte != b'\n',
        }
    }
}

/// The number of bytes that the span takes from the front of the text.
pub(crate) fn span_len(span: Span, text: &[u8]) -> usize
    ensures len { result ≡ prefix_len (takes span) text.now }
    ensures within { result ≤ length text.now }
{
    let mut len = 0;
    while len < text.len() && span.takes(text[len]) {
        len += 1;
    }
    len
}
