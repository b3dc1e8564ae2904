//! `difference` finds the bytes in which two texts differ, and `reason_words` describes an edit in words.

ghost use Rattle.std.specs.Prelude.{◌≡◌, ◌++◌, IfOk};
ghost use Rattle.cool_guess.specs.Words.{edit_words, first_line, quoted, reason_words, trimmed};

use crate::candidate::Reason;
use crate::hint::hint_words;
use crate::lexeme::{is_name_byte, part};
use std::alloc::{AllocError, Global};

/// The range of the old text, and the bytes in its place, that lead to the new one: from the first byte that differs to the last, and no word in part.
/// Returns `Err` only if memory runs out.
pub fn difference(
    alloc: Global,
    old: &[u8],
    new: &[u8],
) -> Result<(usize, usize, Vec<u8>), AllocError> {
    let mut start = same_in_front(old, new);
    let most = old.len().min(new.len()).saturating_sub(start);
    let mut same = same_behind(old, new).min(most);
    for _ in 0..start {
        if goes_on(old, start) || goes_on(new, start) {
            start = start.saturating_sub(1);
        } else {
            break;
        }
    }
    for _ in 0..same {
        let old_end = old.len().saturating_sub(same);
        let new_end = new.len().saturating_sub(same);
        if goes_on(old, old_end) || goes_on(new, new_end) {
            same = same.saturating_sub(1);
        } else {
            break;
        }
    }
    let text = Vec::from_slice(alloc, part(new, start, new.len().saturating_sub(same)))?;
    Ok((start, old.len().saturating_sub(same), text))
}

/// The number of bytes that two texts begin with alike.
fn same_in_front(a: &[u8], b: &[u8]) -> usize {
    let most = a.len().min(b.len());
    for index in 0..most {
        if a[index] != b[index] {
            return index;
        }
    }
    most
}

/// The number of bytes that two texts end with alike.
fn same_behind(a: &[u8], b: &[u8]) -> usize {
    let most = a.len().min(b.len());
    for back in 0..most {
        if a[a.len() - 1 - back] != b[b.len() - 1 - back] {
            return back;
        }
    }
    most
}

/// Whether a word goes on at a byte.
fn goes_on(text: &[u8], at: usize) -> bool {
    let around = part(text, at.saturating_sub(1), at.saturating_add(1));
    match around {
        [before, here] => is_name_byte(*before) && is_name_byte(*here),
        _ => false,
    }
}

/// The words on an edit that puts new bytes in the place of old ones, for this reason. Returns `Err` only if memory runs out.
pub fn reason_words(
    alloc: Global,
    old: &[u8],
    new: &[u8],
    reason: Reason,
) -> Result<Vec<u8>, AllocError>
    ensures { IfOk result (λ words. words.items ≡ reason_words reason old.now new.now) }
{
    match reason {
        Reason::Edit => edit_words(alloc, trimmed(old), trimmed(new)),
        Reason::Hinted(hint) => Vec::from_slice(alloc, hint_words(hint).as_bytes()),
    }
}

/// The words on bytes that are taken away and bytes that are put in, both without the white space around them. Returns `Err` only if memory runs out.
fn edit_words(alloc: Global, old: &[u8], new: &[u8]) -> Result<Vec<u8>, AllocError>
    ensures { IfOk result (λ words. words.items ≡ edit_words old.now new.now) }
{
    match (old, new) {
        ([], []) => Vec::from_slice(alloc, b"change the white space"),
        ([], _) => words_on(alloc, b"add ", new),
        (_, []) => words_on(alloc, b"remove ", old),
        _ => {
            let mut words = words_on(alloc, b"write ", new)?;
            words.extend_from_slice(&words_on(alloc, b" instead of ", old)?)?;
            Ok(words)
        }
    }
}

/// These words, and behind them the first line of a text in quotes. Returns `Err` only if memory runs out.
fn words_on(alloc: Global, words: &[u8], text: &[u8]) -> Result<Vec<u8>, AllocError>
    ensures { IfOk result (λ all. all.items ≡ words.now ++ quoted text.now) }
{
    let mut all = Vec::from_slice(alloc, words)?;
    let line = first_line(text);
    all.push(b'`')?;
    all.extend_from_slice(line)?;
    all.extend_from_slice(if line.len() < text.len() {
        b" ..`"
    } else {
        b"`"
    })?;
    Ok(all)
}

/// The bytes in front of the first newline.
fn first_line(bytes: &[u8]) -> &[u8]
    ensures { result.now ≡ first_line bytes.now }
{
    for index in 0..bytes.len() {
        if bytes[index] == b'\n' {
            return &bytes[..index];
        }
    }
    bytes
}

/// The text without the white space around it.
fn trimmed(text: &[u8]) -> &[u8]
    ensures { result.now ≡ trimmed text.now }
{
    text.trim_ascii()
}
