//! `edited` applies an edit to source files and returns copies of all files, with one of them edited.

ghost use Rattle.std.specs.Prelude.{◌≡◌, ◌++◌, ◌≤◌, IfOk, IfSome, length, true};
ghost use Rattle.cool_syntax.specs.declared.TheConstants.{MOST_FILES, MOST_SOURCE_BYTES};
ghost use Rattle.cool_faults.specs.Files.{bytes_of, total};
ghost use Rattle.cool_mend.specs.Edits.{IsEdit, edited, replaced};

use crate::edit::Edit;
use cool_syntax::{MOST_FILES, MOST_SOURCE_BYTES};
use std::alloc::{AllocError, Global};

/// The edited files, or none where the range lies in none of them, or they are too large then. Returns `Err` only if memory runs out.
pub(crate) fn edited(
    alloc: Global,
    files: &[Vec<u8>],
    edit: &Edit,
) -> Result<Option<Vec<Vec<u8>>>, AllocError>
    ensures is { IfOk result (λ answer. IfSome answer (λ all. bytes_of all.items ≡ edited edit.now (bytes_of files.now))) }
    ensures few { IfOk result (λ answer. IfSome answer (λ all. length all.items ≤ MOST_FILES)) }
    ensures small { IfOk result (λ answer. IfSome answer (λ all. total (bytes_of all.items) ≤ MOST_SOURCE_BYTES)) }
    ensures edit { IfOk result (λ answer. IfSome answer (λ all. IsEdit (bytes_of files.now) edit.now)) }
{
    let index = edit.file as usize;
    if index >= files.len() {
        return Ok(None);
    }
    let bytes = files[index].as_slice();
    if edit.start > edit.end || edit.end > bytes.len() {
        return Ok(None);
    }
    let mut all = Vec::new(alloc);
    append_copies(alloc, &mut all, &files[..index])?;
    all.push(replaced(alloc, edit.start, edit.end, &edit.text, bytes)?)?;
    append_copies(alloc, &mut all, &files[index + 1..])?;
    if all.len() <= MOST_FILES && fit(&all) {
        Ok(Some(all))
    } else {
        Ok(None)
    }
}

/// Adds copies of files. Returns `Err` only if memory runs out.
pub(crate) fn append_copies(
    alloc: Global,
    all: &mut Vec<Vec<u8>>,
    files: &[Vec<u8>],
) -> Result<(), AllocError>
    ensures { IfOk result (λ _. bytes_of all.new.items ≡ bytes_of all.old.items ++ bytes_of files.now) }
{
    for index in 0..files.len() {
        all.push(Vec::from_slice(alloc, files[index].as_slice())?)?;
    }
    Ok(())
}

/// The bytes with others in the place of a range. Returns `Err` only if memory runs out.
fn replaced(
    alloc: Global,
    start: usize,
    end: usize,
    text: &[u8],
    bytes: &[u8],
) -> Result<Vec<u8>, AllocError>
    requires order { start ≤ end }
    requires within { end ≤ length bytes.now }
    ensures { IfOk result (λ new. new.items ≡ replaced start end text.now bytes.now) }
{
    let mut new = Vec::from_slice(alloc, &bytes[..start])?;
    new.extend_from_slice(text)?;
    new.extend_from_slice(&bytes[end..])?;
    Ok(new)
}

/// Whether files keep the limit on the bytes of all.
fn fit(files: &[Vec<u8>]) -> bool
    ensures { result ≡ true → total (bytes_of files.now) ≤ MOST_SOURCE_BYTES }
{
    let mut left = MOST_SOURCE_BYTES as usize;
    for index in 0..files.len() {
        let length = files[index].len();
        if length > left {
            return false;
        }
        left -= length;
    }
    true
}
