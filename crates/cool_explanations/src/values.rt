//! `value_text` shows where a value of the wrong type comes from: the source lines of the expressions that give it.

ghost use Rattle.std.specs.Prelude.{◌≡◌, IfOk};
ghost use Rattle.std.specs.List.{flat_map};
ghost use Rattle.cool_faults.specs.Files.{bytes_of};
ghost use Rattle.cool_explanations.specs.Texts.{value_line, value_text};

use crate::source_line::source_line;
use crate::text::{file_of, note_line};
use cool_syntax::Place;
use std::alloc::{AllocError, Global};

/// The line that says where a value comes from, and the source lines; nothing if that is not known. Returns `Err` only if memory runs out.
pub(crate) fn value_text(
    alloc: Global,
    files: &[Vec<u8>],
    places: &[Place],
) -> Result<Vec<u8>, AllocError>
    ensures { IfOk result (λ text. text.items ≡ value_text (bytes_of files.now) places.now) }
{
    if places.is_empty() {
        return Ok(Vec::new(alloc));
    }
    let mut text = note_line(alloc, b"the value comes from here:")?;
    text.extend_from_slice(&value_lines(alloc, files, places)?)?;
    Ok(text)
}

/// The source lines of the expressions that give a value. Returns `Err` only if memory runs out.
fn value_lines(alloc: Global, files: &[Vec<u8>], places: &[Place]) -> Result<Vec<u8>, AllocError>
    ensures { IfOk result (λ text. text.items ≡ flat_map (value_line (bytes_of files.now)) places.now) }
{
    let mut text = Vec::new(alloc);
    for place in places {
        text.extend_from_slice(&value_line(alloc, files, *place)?)?;
    }
    Ok(text)
}

/// The source line of an expression that gives a value, with a mark below its place. Returns `Err` only if memory runs out.
fn value_line(alloc: Global, files: &[Vec<u8>], at: Place) -> Result<Vec<u8>, AllocError>
    ensures { IfOk result (λ text. text.items ≡ value_line (bytes_of files.now) at) }
{
    let Place { file, line, byte } = at;
    source_line(
        alloc,
        file_of(files, file),
        line,
        byte as usize,
        byte as usize,
    )
}
