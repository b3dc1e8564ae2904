//! `lines_of` writes explanations and warnings as lines for other programs to read (`cool_explain --lines`).

ghost use Rattle.std.specs.Prelude.{◌≡◌, ◌++◌, IfOk, ℕ, List, map, option_map};
ghost use Rattle.std.specs.List.{flat_map};
ghost use Rattle.cool_faults.specs.Files.{bytes_of};
ghost use Rattle.cool_explanations.specs.Lines.{after_lines, apply_line, cure_line, escaped, escaped_byte, explanation_lines, fact_line, first_line, lines_of, mend_lines, notice_line, origin_line, other_line, place_line, range_line, range_text, value_line, word_line};

use crate::cures::cure_of;
use crate::facts::facts;
use crate::rules::rule_line;
use crate::text::file_of;
use cool_faults::{fault_words, shown};
use cool_mend::{AfterFixes, Edit, Explained, Explanation, Mend, Notice, Origin};
use cool_syntax::Place;
use std::alloc::{AllocError, Global};

/// The lines of what is told of files. Returns `Err` only if memory runs out.
pub(crate) fn lines_of(
    alloc: Global,
    files: &[Vec<u8>],
    told: &Explained,
) -> Result<Vec<u8>, AllocError>
    ensures { IfOk result (λ text. text.items ≡ lines_of (bytes_of files.now) told.now) }
{
    let mut text = explanations_lines(alloc, files, &told.explanations)?;
    text.extend_from_slice(&all_after_lines(alloc, &told.after_fixes)?)?;
    text.extend_from_slice(&notices_lines(alloc, &told.notices)?)?;
    Ok(text)
}

/// The lines of the faults that files have after fixes, step by step. Returns `Err` only if memory runs out.
fn all_after_lines(alloc: Global, all: &[AfterFixes]) -> Result<Vec<u8>, AllocError>
    ensures { IfOk result (λ text. text.items ≡ flat_map after_lines all.now) }
{
    let mut text = Vec::new(alloc);
    for step in all {
        text.extend_from_slice(&after_lines(alloc, step)?)?;
    }
    Ok(text)
}

/// The lines of one step. Returns `Err` only if memory runs out.
fn after_lines(alloc: Global, step: &AfterFixes) -> Result<Vec<u8>, AllocError>
    ensures { IfOk result (λ text. text.items ≡ after_lines step.now) }
{
    let mut text = apply_lines(alloc, &step.edits)?;
    text.extend_from_slice(&origin_lines(alloc, &step.origins)?)?;
    text.extend_from_slice(&explanations_lines(alloc, &step.files, &step.explanations)?)?;
    Ok(text)
}

/// A line for each edit that is made. Returns `Err` only if memory runs out.
fn apply_lines(alloc: Global, edits: &[Edit]) -> Result<Vec<u8>, AllocError>
    ensures { IfOk result (λ text. text.items ≡ flat_map apply_line edits.now) }
{
    let mut text = Vec::new(alloc);
    for edit in edits {
        text.extend_from_slice(&range_line(alloc, b"apply ", edit)?)?;
    }
    Ok(text)
}

/// A line for each place from which a fault comes. Returns `Err` only if memory runs out.
fn origin_lines(alloc: Global, origins: &[Origin]) -> Result<Vec<u8>, AllocError>
    ensures { IfOk result (λ text. text.items ≡ flat_map origin_line origins.now) }
{
    let mut text = Vec::new(alloc);
    for origin in origins {
        text.extend_from_slice(&origin_line(alloc, *origin)?)?;
    }
    Ok(text)
}

/// The line of such a place. Returns `Err` only if memory runs out.
fn origin_line(alloc: Global, origin: Origin) -> Result<Vec<u8>, AllocError>
    ensures { IfOk result (λ text. text.items ≡ origin_line origin) }
{
    let Origin { file, byte } = origin;
    Ok(format!(in alloc; "origin {file}:{byte}\n")?.into_bytes())
}

/// The lines of explanations. Returns `Err` only if memory runs out.
fn explanations_lines(
    alloc: Global,
    files: &[Vec<u8>],
    all: &[Explanation],
) -> Result<Vec<u8>, AllocError>
    ensures { IfOk result (λ text. text.items ≡ flat_map (explanation_lines (bytes_of files.now)) all.now) }
{
    let mut text = Vec::new(alloc);
    for told in all {
        text.extend_from_slice(&explanation_lines(alloc, files, told)?)?;
    }
    Ok(text)
}

/// The lines of notices. Returns `Err` only if memory runs out.
fn notices_lines(alloc: Global, all: &[Notice]) -> Result<Vec<u8>, AllocError>
    ensures { IfOk result (λ text. text.items ≡ flat_map notice_line all.now) }
{
    let mut text = Vec::new(alloc);
    for notice in all {
        text.extend_from_slice(&notice_line(alloc, notice)?)?;
    }
    Ok(text)
}

/// The lines of the explanation of a fault. Returns `Err` only if memory runs out.
fn explanation_lines(
    alloc: Global,
    files: &[Vec<u8>],
    told: &Explanation,
) -> Result<Vec<u8>, AllocError>
    ensures { IfOk result (λ text. text.items ≡ explanation_lines (bytes_of files.now) told.now) }
{
    let file = file_of(files, told.fault.place().file);
    let mut text = first_line(alloc, told)?;
    text.extend_from_slice(&rule_line(alloc, &told.fault)?)?;
    text.extend_from_slice(&fact_lines(alloc, &facts(alloc, file, told)?)?)?;
    text.extend_from_slice(&value_lines(alloc, &told.values)?)?;
    text.extend_from_slice(&other_line(alloc, told.other)?)?;
    text.extend_from_slice(&cure_line(alloc, cure_of(told))?)?;
    text.extend_from_slice(&all_mend_lines(alloc, &told.mends)?)?;
    Ok(text)
}

/// The line of a fault. Returns `Err` only if memory runs out.
fn first_line(alloc: Global, told: &Explanation) -> Result<Vec<u8>, AllocError>
    ensures { IfOk result (λ line. line.items ≡ first_line told.now) }
{
    let mut line = Vec::from_slice(alloc, b"fault ")?;
    line.extend_from_slice(&range_text(alloc, told.fault.place(), told.here.end)?)?;
    line.extend_from_slice(&word_line(alloc, b" ", fault_words(&told.fault).as_bytes())?)?;
    Ok(line)
}

/// The lines of mends. Returns `Err` only if memory runs out.
fn all_mend_lines(alloc: Global, mends: &[Mend]) -> Result<Vec<u8>, AllocError>
    ensures { IfOk result (λ text. text.items ≡ flat_map mend_lines mends.now) }
{
    let mut text = Vec::new(alloc);
    for mend in mends {
        text.extend_from_slice(&mend_lines(alloc, mend)?)?;
    }
    Ok(text)
}

/// A place, and where the range ends that begins there: `FILE:LINE:START:END`. Returns `Err` only if memory runs out.
fn range_text(alloc: Global, at: Place, end: usize) -> Result<Vec<u8>, AllocError>
    ensures { IfOk result (λ text. text.items ≡ range_text at end) }
{
    let Place { file, line, byte } = at;
    let end = end.max(byte as usize);
    Ok(format!(in alloc; "{file}:{line}:{byte}:{end}")?.into_bytes())
}

/// A line of words behind what it is. Returns `Err` only if memory runs out.
fn word_line(alloc: Global, what: &[u8], words: &[u8]) -> Result<Vec<u8>, AllocError>
    ensures { IfOk result (λ line. line.items ≡ word_line what.now words.now) }
{
    let mut line = Vec::from_slice(alloc, what)?;
    line.extend_from_slice(&escaped(alloc, &shown(alloc, words)?)?)?;
    line.extend_from_slice(b"\n")?;
    Ok(line)
}

/// A line for each fact. Returns `Err` only if memory runs out.
fn fact_lines(alloc: Global, all: &[Vec<u8>]) -> Result<Vec<u8>, AllocError>
    ensures { IfOk result (λ text. text.items ≡ flat_map fact_line (bytes_of all.now)) }
{
    let mut text = Vec::new(alloc);
    for words in all {
        text.extend_from_slice(&word_line(alloc, b"fact ", words)?)?;
    }
    Ok(text)
}

/// The line of the other definition of a thing that is defined twice. Returns `Err` only if memory runs out.
fn other_line(alloc: Global, other: Option<Place>) -> Result<Vec<u8>, AllocError>
    ensures { IfOk result (λ text. text.items ≡ other_line other) }
{
    match other {
        Some(at) => place_line(alloc, b"other ", at),
        None => Ok(Vec::new(alloc)),
    }
}

/// A line for each expression that gives a value. Returns `Err` only if memory runs out.
fn value_lines(alloc: Global, places: &[Place]) -> Result<Vec<u8>, AllocError>
    ensures { IfOk result (λ text. text.items ≡ flat_map value_line places.now) }
{
    let mut text = Vec::new(alloc);
    for at in places {
        text.extend_from_slice(&place_line(alloc, b"value ", *at)?)?;
    }
    Ok(text)
}

/// A line of a place behind what it is. Returns `Err` only if memory runs out.
fn place_line(alloc: Global, what: &[u8], at: Place) -> Result<Vec<u8>, AllocError>
    ensures { IfOk result (λ text. text.items ≡ place_line what.now at) }
{
    let Place { file, line, byte } = at;
    let mut text = Vec::from_slice(alloc, what)?;
    text.extend_from_slice(format!(in alloc; "{file}:{line}:{byte}\n")?.as_bytes())?;
    Ok(text)
}

/// The line of the general advice, if it is given. Returns `Err` only if memory runs out.
fn cure_line(alloc: Global, cure: Option<&'static str>) -> Result<Vec<u8>, AllocError>
    ensures { IfOk result (λ text. text.items ≡ cure_line (option_map (λ words. words.now) cure.entry)) }
{
    match cure {
        Some(cure) => word_line(alloc, b"cure ", cure.as_bytes()),
        None => Ok(Vec::new(alloc)),
    }
}

/// The lines of a mend. Returns `Err` only if memory runs out.
fn mend_lines(alloc: Global, mend: &Mend) -> Result<Vec<u8>, AllocError>
    ensures { IfOk result (λ text. text.items ≡ mend_lines mend.now) }
{
    let mut text = word_line(alloc, b"mend ", &mend.words)?;
    text.extend_from_slice(&range_line(alloc, b"edit ", &mend.edit)?)?;
    Ok(text)
}

/// The line of an edit behind what is done with it. Returns `Err` only if memory runs out.
fn range_line(alloc: Global, what: &[u8], edit: &Edit) -> Result<Vec<u8>, AllocError>
    ensures { IfOk result (λ line. line.items ≡ range_line what.now edit.now) }
{
    let (file, start, end) = (edit.file, edit.start, edit.end);
    let mut line = Vec::from_slice(alloc, what)?;
    line.extend_from_slice(format!(in alloc; "{file}:{start}:{end} ")?.as_bytes())?;
    line.extend_from_slice(&escaped(alloc, &edit.text)?)?;
    line.extend_from_slice(b"\n")?;
    Ok(line)
}

/// Bytes on one line: a newline as `\n`, a backslash as `\\`. Returns `Err` only if memory runs out.
fn escaped(alloc: Global, bytes: &[u8]) -> Result<Vec<u8>, AllocError>
    ensures { IfOk result (λ text. text.items ≡ escaped bytes.now) }
{
    let mut text = Vec::new(alloc);
    for byte in bytes {
        text.extend_from_slice(&escaped_byte(alloc, *byte)?)?;
    }
    Ok(text)
}

/// A byte of them. Returns `Err` only if memory runs out.
fn escaped_byte(alloc: Global, byte: u8) -> Result<Vec<u8>, AllocError>
    ensures { IfOk result (λ text. text.items ≡ escaped_byte byte) }
{
    match byte {
        b'\n' => Vec::from_slice(alloc, b"\\n"),
        b'\\' => Vec::from_slice(alloc, b"\\\\"),
        _ => Vec::from_slice(alloc, &[byte]),
    }
}

/// The line of a notice. Returns `Err` only if memory runs out.
fn notice_line(alloc: Global, notice: &Notice) -> Result<Vec<u8>, AllocError>
    ensures { IfOk result (λ line. line.items ≡ notice_line notice.now) }
{
    let mut line = Vec::from_slice(alloc, b"notice ")?;
    line.extend_from_slice(&range_text(alloc, notice.at, notice.end)?)?;
    line.extend_from_slice(&word_line(alloc, b" ", &notice.words)?)?;
    Ok(line)
}
