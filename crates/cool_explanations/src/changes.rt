//! `changed_text` writes the lines of a file that an edit changes, as they become, and those that it removes.

ghost use Rattle.std.specs.Prelude.{◌≡◌, ◌++◌, ◌+◌, ◌≤◌, ◌^◌, IfOk, OnOk, length, map, option_map};
ghost use Rattle.std.specs.List.{concat};
ghost use Rattle.cool_faults.specs.Files.{bytes_of};
ghost use Rattle.cool_explanations.specs.Changes.{all_but_last, change_at, change_text, changed_text, changes, is_blank, last_of, line_number, lines, numbered, shortened};
ghost use Rattle.cool_explanations.specs.Changes.Change.{becomes};

use crate::shown::{from, part, up_to};
use crate::source_line::{first_line, last_line, number};
use cool_faults::shown;
use cool_mend::Edit;
use std::alloc::{AllocError, Global};

/// The most lines of a mend that are shown.
const MOST_LINES: usize = 8;

/// The lines of a file that an edit changes, as they become, and those that it takes away; at most eight. Returns `Err` only if memory runs out.
pub(crate) fn changed_text(alloc: Global, file: &[u8], edit: &Edit) -> Result<Vec<u8>, AllocError>
    ensures { IfOk result (λ text. text.items ≡ changed_text file.now edit.now) }
{
    let before = up_to(file, edit.start);
    let front = last_line(before);
    let back = first_line(from(file, edit.end));
    let old = lines(
        alloc,
        &joined(alloc, front, part(file, edit.start, edit.end), back)?,
    )?;
    let new = lines(alloc, &joined(alloc, front, &edit.text, back)?)?;
    let all = if last_of(&old) == last_of(&new) {
        changes(
            alloc,
            line_number(before),
            all_but_last(&old),
            all_but_last(&new),
        )?
    } else {
        changes(alloc, line_number(before), &old, &new)?
    };
    shortened(alloc, &all)
}

/// Three stretches of bytes as one. Returns `Err` only if memory runs out.
fn joined(alloc: Global, front: &[u8], middle: &[u8], back: &[u8]) -> Result<Vec<u8>, AllocError>
    ensures { IfOk result (λ all. all.items ≡ front.now ++ (middle.now ++ back.now)) }
{
    let mut all = Vec::from_slice(alloc, front)?;
    all.extend_from_slice(middle)?;
    all.extend_from_slice(back)?;
    Ok(all)
}

/// The lines of some bytes, without their newlines. Returns `Err` only if memory runs out.
fn lines(alloc: Global, bytes: &[u8]) -> Result<Vec<Vec<u8>>, AllocError>
    ensures { IfOk result (λ all. bytes_of all.items ≡ lines bytes.now) }
{
    let mut all = Vec::new(alloc);
    let mut line = Vec::new(alloc);
    for index in 0..bytes.len() {
        if bytes[index] == b'\n' {
            all.push(line)?;
            line = Vec::new(alloc);
        } else {
            line.push(bytes[index])?;
        }
    }
    all.push(line)?;
    Ok(all)
}

/// The number of the line that begins or goes on behind these bytes of a file.
fn line_number(bytes: &[u8]) -> usize
    ensures is { result ≡ line_number bytes.now }
    ensures within { result ≤ length bytes.now + 1 }
{
    let mut number = 1;
    for index in 0..bytes.len() {
        if bytes[index] == b'\n' {
            number += 1;
        }
    }
    number
}

/// The last line, or nothing.
fn last_of(lines: &[Vec<u8>]) -> &[u8]
    ensures { result.now ≡ last_of (bytes_of lines.now) }
{
    match lines.get(lines.len().saturating_sub(1)) {
        Some(line) => line.as_slice(),
        None => b"",
    }
}

/// The lines but the last one.
fn all_but_last(lines: &[Vec<u8>]) -> &[Vec<u8>]
    ensures { bytes_of result.now ≡ all_but_last (bytes_of lines.now) }
{
    &lines[..lines.len().saturating_sub(1)]
}

/// The texts of the changes of lines, of which the first has this number, into others. Returns `Err` only if memory runs out.
fn changes(
    alloc: Global,
    first: usize,
    old: &[Vec<u8>],
    new: &[Vec<u8>],
) -> Result<Vec<Vec<u8>>, AllocError>
    requires { first ≤ 2 ^ 63 }
    ensures { IfOk result (λ all. bytes_of all.items ≡ map change_text (changes first (bytes_of old.now) (bytes_of new.now))) }
{
    let mut all = Vec::new(alloc);
    for index in 0..old.len().max(new.len()) {
        add_change(
            alloc,
            first + index,
            old.get(index),
            new.get(index),
            &mut all,
        )?;
    }
    Ok(all)
}

/// Adds the text of the change of a line into another, unless it stays. Returns `Err` only if memory runs out.
fn add_change(
    alloc: Global,
    line: usize,
    old: Option<&Vec<u8>>,
    new: Option<&Vec<u8>>,
    all: &mut Vec<Vec<u8>>,
) -> Result<(), AllocError>
    ensures { OnOk result (bytes_of all.new.items ≡ bytes_of all.old.items ++ map change_text (change_at line (option_map (λ l. l.now.items) old.entry) (option_map (λ l. l.now.items) new.entry))) }
{
    match (old, new) {
        (Some(old), Some(new)) => {
            if old.as_slice() != new.as_slice() {
                all.push(changed(alloc, line, old, new)?)?;
            }
        }
        (Some(old), None) => all.push(numbered(alloc, line, b" - ", old)?)?,
        (None, Some(new)) => all.push(numbered(alloc, line, b" + ", new)?)?,
        (None, None) => {}
    }
    Ok(())
}

/// The text of a line that becomes another: the old line if only white space is left of it. Returns `Err` only if memory runs out.
fn changed(alloc: Global, line: usize, old: &[u8], new: &[u8]) -> Result<Vec<u8>, AllocError>
    ensures { IfOk result (λ text. text.items ≡ change_text (becomes line old.now new.now)) }
{
    if is_blank(new) {
        numbered(alloc, line, b" - ", old)
    } else {
        numbered(alloc, line, b" + ", new)
    }
}

/// Whether a line is white space alone.
fn is_blank(line: &[u8]) -> bool
    ensures { result ≡ is_blank line.now }
{
    line.iter().all(|byte| *byte <= b' ')
}

/// A line with its number and a sign. Returns `Err` only if memory runs out.
fn numbered(alloc: Global, line: usize, sign: &[u8], text: &[u8]) -> Result<Vec<u8>, AllocError>
    ensures { IfOk result (λ shown. shown.items ≡ numbered line sign.now text.now) }
{
    let mut all = number(alloc, line)?;
    all.extend_from_slice(sign)?;
    all.extend_from_slice(&shown(alloc, text)?)?;
    all.extend_from_slice(b"\n")?;
    Ok(all)
}

/// The first eight lines, and `..` where there are more. Returns `Err` only if memory runs out.
fn shortened(alloc: Global, lines: &[Vec<u8>]) -> Result<Vec<u8>, AllocError>
    ensures { IfOk result (λ text. text.items ≡ shortened (bytes_of lines.now)) }
{
    if lines.len() <= MOST_LINES {
        return joined_lines(alloc, lines);
    }
    let mut text = joined_lines(alloc, &lines[..MOST_LINES])?;
    text.extend_from_slice(b"      ..\n")?;
    Ok(text)
}

/// Lines one after the other. Returns `Err` only if memory runs out.
fn joined_lines(alloc: Global, lines: &[Vec<u8>]) -> Result<Vec<u8>, AllocError>
    ensures { IfOk result (λ text. text.items ≡ concat (bytes_of lines.now)) }
{
    let mut text = Vec::new(alloc);
    for line in lines {
        text.extend_from_slice(line)?;
    }
    Ok(text)
}
