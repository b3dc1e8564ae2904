//! `lexemes` splits any text, valid or not, into lexemes: it says where each begins and ends. A byte that begins no lexeme is one of its own.

ghost use Rattle.std.specs.Prelude.{◌≡◌, ◌≤◌, length, true};
ghost use Rattle.std.specs.List.{prefix_len};
ghost use Rattle.cool_syntax.specs.Lexemes.{is_in_word};
ghost use Rattle.cool_guess.specs.Lexemes.{lexeme_size, string_size};

use std::alloc::{AllocError, Global};

/// The most comments that are not closed whose end is looked for: each search goes through the rest of the text.
const MOST_OPEN: usize = 8;

/// The range of a lexeme.
#[derive(Clone, Copy)]
pub struct Lexeme {
    pub start: usize,
    pub end: usize,
}

/// The bytes of a range, as far as they are there.
pub fn part(bytes: &[u8], start: usize, end: usize) -> &[u8] {
    let end = end.min(bytes.len());
    let start = start.min(end);
    &bytes[start..end]
}

/// The lexemes of a text, without white space and comments. Returns `Err` only if memory runs out.
pub(crate) fn lexemes(alloc: Global, bytes: &[u8]) -> Result<Vec<Lexeme>, AllocError> {
    let mut all = Vec::new(alloc);
    let mut end = 0;
    let mut open: usize = 0;
    for start in 0..bytes.len() {
        if start < end {
            continue;
        }
        let rest = &bytes[start..];
        let skipped = if is_comment(rest) && open < MOST_OPEN {
            let length = comment_length(rest);
            open = open.saturating_add(usize::from(length == 0));
            length
        } else {
            blank_length(rest)
        };
        if skipped > 0 {
            end = start.saturating_add(skipped);
        } else {
            end = start.saturating_add(lexeme_length(rest));
            all.push(Lexeme { start, end })?;
        }
    }
    Ok(all)
}

/// The position of the first of a text's lexemes that ends behind a byte; their number if none does.
pub fn index_at(lexemes: &[Lexeme], at: usize) -> usize {
    let mut first: usize = 0;
    let mut last = lexemes.len();
    for _ in 0..usize::BITS {
        if first >= last {
            break;
        }
        let middle = first.saturating_add(last.saturating_sub(first) / 2);
        match lexemes.get(middle) {
            Some(lexeme) if lexeme.end <= at => first = middle.saturating_add(1),
            _ => last = middle,
        }
    }
    first
}

/// The bytes of the lexeme at a position, or none.
pub(crate) fn word_at<'a>(bytes: &'a [u8], lexemes: &[Lexeme], index: usize) -> &'a [u8] {
    match lexemes.get(index) {
        Some(lexeme) => part(bytes, lexeme.start, lexeme.end),
        None => b"",
    }
}

/// The bytes of the lexeme so many before a position, or none.
pub(crate) fn word_before<'a>(
    bytes: &'a [u8],
    lexemes: &[Lexeme],
    index: usize,
    many: usize,
) -> &'a [u8] {
    match index.checked_sub(many) {
        Some(there) => word_at(bytes, lexemes, there),
        None => b"",
    }
}

/// The number of bytes of white space, or of a comment up to the end of its line, that the bytes begin with.
fn blank_length(rest: &[u8]) -> usize {
    match rest {
        [b' ' | b'\n' | b'\r' | b'\t' | 11 | 12, ..] => 1,
        [b'-', b'-', ..] => line_length(rest),
        _ => 0,
    }
}

/// The number of bytes before the end of the line.
pub(crate) fn line_length(rest: &[u8]) -> usize
    ensures { result ≤ length rest.now }
{
    for index in 0..rest.len() {
        if rest[index] == b'\n' {
            return index;
        }
    }
    rest.len()
}

/// Whether the bytes begin as a comment of several lines does.
fn is_comment(rest: &[u8]) -> bool {
    matches!(rest, [b'(', b'*', ..])
}

/// The length of the comment that the bytes begin with; 0 if it is not closed, so that its signs are lexemes.
fn comment_length(rest: &[u8]) -> usize {
    let mut depth: usize = 0;
    let mut taken = 0;
    for index in 0..rest.len() {
        if index < taken {
            continue;
        }
        match part(rest, index, index.saturating_add(2)) {
            b"(*" => {
                depth = depth.saturating_add(1);
                taken = index.saturating_add(2);
            }
            b"*)" => {
                depth = depth.saturating_sub(1);
                taken = index.saturating_add(2);
                if depth == 0 {
                    return taken;
                }
            }
            _ => {}
        }
    }
    0
}

/// The length of the lexeme that the bytes begin with.
pub fn lexeme_length(rest: &[u8]) -> usize
    ensures size { result ≡ lexeme_size rest.now }
    ensures within { result ≤ length rest.now }
{
    match rest {
        [] => 0,
        [b'"', ..] => string_length(rest),
        [b'<', b'-' | b'=', ..] | [b'=', b'>', ..] => 2,
        [first, ..] if is_name_byte(*first) => name_length(rest),
        _ => 1,
    }
}

/// The length of the string constant that the bytes begin with, up to its quote or the end of its line.
fn string_length(rest: &[u8]) -> usize
    ensures size { result ≡ string_size true rest.now }
    ensures within { result ≤ length rest.now }
{
    let mut escaped = true;
    for index in 0..rest.len() {
        match rest[index] {
            b'"' if !escaped => return index + 1,
            b'\n' if !escaped => return index,
            b'\\' => escaped = !escaped,
            _ => escaped = false,
        }
    }
    rest.len()
}

/// The length of the name or number that the bytes begin with.
fn name_length(rest: &[u8]) -> usize
    ensures size { result ≡ prefix_len is_in_word rest.now }
    ensures within { result ≤ length rest.now }
{
    for index in 0..rest.len() {
        if !is_name_byte(rest[index]) {
            return index;
        }
    }
    rest.len()
}

/// Whether a byte may stand in a name.
pub(crate) fn is_name_byte(byte: u8) -> bool
    ensures { result ≡ is_in_word byte }
{
    matches!(byte, b'A'..=b'Z' | b'a'..=b'z' | b'0'..=b'9' | b'_')
}
