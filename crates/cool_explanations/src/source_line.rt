//! `source_line` writes the source line of a compile-time error, and below it carets (`^`) that mark its range.

ghost use Rattle.std.specs.Prelude.{◌≡◌, ◌≤◌, IfOk, length, take, drop};
ghost use Rattle.std.specs.List.{flat_map};
ghost use Rattle.cool_explanations.specs.SourceLines.{blank_of, blanks, first_line, is_inner, last_line, mark_of, marks, most_of, number, source_line, source_text};

use crate::shown::{cut_back, cut_front, from, up_to};
use cool_faults::shown;
use std::alloc::{AllocError, Global};

/// The most bytes of a line that is shown whole.
const MOST_LINE_BYTES: usize = 160;

/// The most bytes that are shown of each part of a longer line: in front of the range, of the range, and behind it.
const MOST_PART_BYTES: usize = 50;

/// The source line of this number in which a range stands, and below it the mark of the range. Returns `Err` only if memory runs out.
pub(crate) fn source_line(
    alloc: Global,
    file: &[u8],
    line: u32,
    start: usize,
    end: usize,
) -> Result<Vec<u8>, AllocError>
    ensures { IfOk result (λ text. text.items ≡ source_line file.now line start end) }
{
    let front = last_line(up_to(file, start));
    let mut all = Vec::from_slice(alloc, front)?;
    all.extend_from_slice(first_line(from(file, start)))?;
    let all = shown(alloc, &all)?;
    let rest = from(&all, front.len());
    let size = end.saturating_sub(start);
    let most = most_of(all.len());
    source_text(
        alloc,
        line,
        &cut_front(alloc, most, up_to(&all, front.len()))?,
        &cut_back(alloc, most, up_to(rest, size))?,
        &cut_back(alloc, most, from(rest, size))?,
    )
}

/// The number of bytes of each part of a line of so many bytes that are shown.
fn most_of(size: usize) -> usize
    ensures { result ≡ most_of size }
{
    if size <= MOST_LINE_BYTES {
        MOST_LINE_BYTES
    } else {
        MOST_PART_BYTES
    }
}

/// A line of this number, of three parts, the second of which is marked. Returns `Err` only if memory runs out.
fn source_text(
    alloc: Global,
    line: u32,
    front: &[u8],
    range: &[u8],
    back: &[u8],
) -> Result<Vec<u8>, AllocError>
    ensures { IfOk result (λ text. text.items ≡ source_text line front.now range.now back.now) }
{
    let mut text = number(alloc, line as usize)?;
    text.extend_from_slice(b" | ")?;
    text.extend_from_slice(front)?;
    text.extend_from_slice(range)?;
    text.extend_from_slice(back)?;
    text.extend_from_slice(b"\n      | ")?;
    text.extend_from_slice(&blanks(alloc, front)?)?;
    text.extend_from_slice(&marks(alloc, range)?)?;
    text.extend_from_slice(b"\n")?;
    Ok(text)
}

/// The number of a line, with blanks in front to five letters. Returns `Err` only if memory runs out.
pub(crate) fn number(alloc: Global, line: usize) -> Result<Vec<u8>, AllocError>
    ensures { IfOk result (λ text. text.items ≡ number line) }
{
    let digits = format!(in alloc; "{line}")?.into_bytes();
    let mut text = Vec::from_elem(alloc, b' ', 5usize.saturating_sub(digits.len()))?;
    text.extend_from_slice(&digits)?;
    Ok(text)
}

/// The blanks below bytes that are not marked. Returns `Err` only if memory runs out.
fn blanks(alloc: Global, bytes: &[u8]) -> Result<Vec<u8>, AllocError>
    ensures { IfOk result (λ text. text.items ≡ blanks bytes.now) }
{
    let mut text = Vec::new(alloc);
    for byte in bytes {
        text.extend_from_slice(blank_of(*byte))?;
    }
    Ok(text)
}

fn blank_of(byte: u8) -> &'static [u8]
    ensures { result.now ≡ blank_of byte }
{
    if byte == b'\t' {
        b"\t"
    } else if is_inner(byte) {
        b""
    } else {
        b" "
    }
}

/// The marks below bytes; `^` below none. Returns `Err` only if memory runs out.
fn marks(alloc: Global, bytes: &[u8]) -> Result<Vec<u8>, AllocError>
    ensures { IfOk result (λ text. text.items ≡ marks bytes.now) }
{
    let mut text = Vec::from_slice(alloc, b"^")?;
    text.extend_from_slice(&further_marks(alloc, &bytes[bytes.len().min(1)..])?)?;
    Ok(text)
}

/// The marks below the bytes behind the first one. Returns `Err` only if memory runs out.
fn further_marks(alloc: Global, bytes: &[u8]) -> Result<Vec<u8>, AllocError>
    ensures { IfOk result (λ text. text.items ≡ flat_map mark_of bytes.now) }
{
    let mut text = Vec::new(alloc);
    for byte in bytes {
        text.extend_from_slice(mark_of(*byte))?;
    }
    Ok(text)
}

fn mark_of(byte: u8) -> &'static [u8]
    ensures { result.now ≡ mark_of byte }
{
    if is_inner(byte) { b"" } else { b"^" }
}

/// Whether a byte continues a letter of UTF-8, and so takes no room of its own.
fn is_inner(byte: u8) -> bool
    ensures { result ≡ is_inner byte }
{
    128 <= byte && byte < 192
}

/// The bytes behind the last newline.
pub(crate) fn last_line(bytes: &[u8]) -> &[u8]
    ensures { result.now ≡ last_line bytes.now }
{
    let mut start = 0;
    for index in 0..bytes.len() {
        if bytes[index] == b'\n' {
            start = index + 1;
        }
    }
    &bytes[start..]
}

/// The bytes in front of the first newline.
pub(crate) fn first_line(bytes: &[u8]) -> &[u8]
    ensures { result.now ≡ first_line bytes.now }
{
    for index in 0..bytes.len() {
        if bytes[index] == b'\n' {
            return &bytes[..index];
        }
    }
    bytes
}
