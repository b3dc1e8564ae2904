//! Scanning the longest token at the front of a line of assembly.

ghost use Rattle.std.specs.Prelude.{◌≡◌, ◌∷◌, ◌≤◌, ◌<◌, Some, false, IfSome, length, option_map};
ghost use Rattle.mips_text.specs.declared.class.Start.TheVariants as start;
ghost use Rattle.mips_text.specs.Fronts.{closing_quote, front_found, sign_front};
ghost use Rattle.mips_text.specs.Words.{front};
ghost use Rattle.mips_text.specs.Views.{found_seen, word_seen};

use crate::class::Start;
use crate::magnitudes::magnitude_at;
use crate::span::{Span, span_len};
use crate::strings::{closes_string, opens_escape};
use crate::words::Word;

/// A word, and the number of its bytes after the first.
#[derive(Clone, Copy)]
pub(crate) struct Found<'a> {
    pub(crate) word: Word<'a>,
    pub(crate) after: usize,
}

/// The longest word at the front of the text, whose first byte begins such a word.
pub(crate) fn front_at<'a>(
    start: Start,
    text: &'a [u8],
    first: u8,
    tail: &'a [u8],
) -> Option<Found<'a>>
    requires whole { text.now ≡ first ∷ tail.now }
    ensures exact { option_map found_seen result ≡ front start first tail.now }
    ensures within { IfSome result (λ f. f.after ≤ length tail.now) }
{
    found_at(start, text, first, tail)
}

/// The word at the front of the text, whose first byte begins such a word.
fn found_at<'a>(start: Start, text: &'a [u8], first: u8, tail: &'a [u8]) -> Option<Found<'a>>
    requires whole { text.now ≡ first ∷ tail.now }
    ensures exact { option_map found_seen result ≡ front_found start first tail.now }
    ensures within { IfSome result (λ f. f.after ≤ length tail.now) }
{
    match start {
        Start::Name => Some(name(text, first, tail)),
        Start::Digit => number(text, first, tail),
        Start::Minus => number_below_zero(first, tail),
        Start::Register => register(first, tail),
        Start::Text => quoted(first, tail),
        Start::Colon => Some(sign(Word::Colon)),
        Start::Open => Some(sign(Word::Open)),
        Start::Close => Some(sign(Word::Close)),
        Start::Stray => None,
    }
}

/// A sign, which is one byte.
fn sign(word: Word<'_>) -> Found<'_>
    ensures exact { found_seen result ≡ sign_front (word_seen word.entry) }
    ensures within { result.after ≡ 0 }
{
    Found { word, after: 0 }
}

/// The name that the text begins with.
fn name<'a>(text: &'a [u8], first: u8, tail: &[u8]) -> Found<'a>
    requires whole { text.now ≡ first ∷ tail.now }
    ensures exact { Some (found_seen result) ≡ front_found start.Name first tail.now }
    ensures within { result.after ≤ length tail.now }
{
    let after = span_len(Span::Name, tail);
    Found {
        word: Word::Name(&text[..after + 1]),
        after,
    }
}

/// The number without a sign that the text begins with.
fn number<'a>(text: &'a [u8], first: u8, tail: &'a [u8]) -> Option<Found<'a>>
    requires whole { text.now ≡ first ∷ tail.now }
    ensures exact { option_map found_seen result ≡ front_found start.Digit first tail.now }
    ensures within { IfSome result (λ f. f.after ≤ length tail.now) }
{
    let number = magnitude_at(text)?;
    Some(Found {
        word: Word::Number(number.value as i64),
        after: number.size - 1,
    })
}

/// The number whose `-` stood before the tail.
fn number_below_zero<'a>(first: u8, tail: &'a [u8]) -> Option<Found<'a>>
    ensures exact { option_map found_seen result ≡ front_found start.Minus first tail.now }
    ensures within { IfSome result (λ f. f.after ≤ length tail.now) }
{
    let number = magnitude_at(tail)?;
    Some(Found {
        word: Word::Number(-(number.value as i64)),
        after: number.size,
    })
}

/// The register whose `$` stood before the tail.
fn register<'a>(first: u8, tail: &'a [u8]) -> Option<Found<'a>>
    ensures exact { option_map found_seen result ≡ front_found start.Register first tail.now }
    ensures within { IfSome result (λ f. f.after ≤ length tail.now) }
{
    let after = span_len(Span::Register, tail);
    if after == 0 {
        return None;
    }
    Some(Found {
        word: Word::Register(&tail[..after]),
        after,
    })
}

/// The string whose first quote stood before the tail.
fn quoted<'a>(first: u8, tail: &'a [u8]) -> Option<Found<'a>>
    ensures exact { option_map found_seen result ≡ front_found start.Text first tail.now }
    ensures within { IfSome result (λ f. f.after ≤ length tail.now) }
{
    let size = closing_quote(tail)?;
    Some(Found {
        word: Word::Text(&tail[..size]),
        after: size + 1,
    })
}

/// The number of bytes before the closing quote. A backslash takes the next byte with it.
fn closing_quote(bytes: &[u8]) -> Option<usize>
    ensures exact { result ≡ closing_quote false 0 bytes.now }
    ensures within { IfSome result (λ n. n < length bytes.now) }
{
    let mut escaped = false;
    for (index, byte) in bytes.iter().enumerate() {
        if closes_string(escaped, *byte) {
            return Some(index);
        }
        escaped = opens_escape(escaped, *byte);
    }
    None
}
