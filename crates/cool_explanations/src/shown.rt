//! These functions cut a text to the part that is shown: a range of it, or its front or its end if it is too long.

ghost use Rattle.std.specs.Prelude.{◌≡◌, IfOk, drop, take};
ghost use Rattle.cool_explanations.specs.Shown.{cut_back, cut_front, part, quoted};

use std::alloc::{AllocError, Global};

/// The first bytes, as many as this or all.
pub(crate) fn up_to(bytes: &[u8], end: usize) -> &[u8]
    ensures { result.now ≡ take end bytes.now }
{
    if end < bytes.len() {
        &bytes[..end]
    } else {
        bytes
    }
}

/// The bytes behind the first ones, as many as this or all.
pub(crate) fn from(bytes: &[u8], start: usize) -> &[u8]
    ensures { result.now ≡ drop start bytes.now }
{
    if start < bytes.len() {
        &bytes[start..]
    } else {
        b""
    }
}

/// The bytes of a range, as far as they are there.
pub(crate) fn part(bytes: &[u8], start: usize, end: usize) -> &[u8]
    ensures { result.now ≡ part start end bytes.now }
{
    from(up_to(bytes, end), start)
}

/// The last bytes, at most so many, behind `..` where others stand in front of them. Returns `Err` only if memory runs out.
pub(crate) fn cut_front(alloc: Global, most: usize, bytes: &[u8]) -> Result<Vec<u8>, AllocError>
    ensures { IfOk result (λ text. text.items ≡ cut_front most bytes.now) }
{
    if bytes.len() <= most {
        return Vec::from_slice(alloc, bytes);
    }
    let mut text = Vec::from_slice(alloc, b"..")?;
    text.extend_from_slice(&bytes[bytes.len() - most..])?;
    Ok(text)
}

/// The first bytes, at most so many, and `..` where others follow them. Returns `Err` only if memory runs out.
pub(crate) fn cut_back(alloc: Global, most: usize, bytes: &[u8]) -> Result<Vec<u8>, AllocError>
    ensures { IfOk result (λ text. text.items ≡ cut_back most bytes.now) }
{
    if bytes.len() <= most {
        return Vec::from_slice(alloc, bytes);
    }
    let mut text = Vec::from_slice(alloc, &bytes[..most])?;
    text.extend_from_slice(b"..")?;
    Ok(text)
}

/// The first 60 bytes between backquotes. Returns `Err` only if memory runs out.
pub(crate) fn quoted(alloc: Global, bytes: &[u8]) -> Result<Vec<u8>, AllocError>
    ensures { IfOk result (λ text. text.items ≡ quoted bytes.now) }
{
    let mut text = Vec::from_slice(alloc, b"`")?;
    text.extend_from_slice(&cut_back(alloc, 60, bytes)?)?;
    text.extend_from_slice(b"`")?;
    Ok(text)
}
