//! `warnings_text` writes each warning with its source line, as text for people.

ghost use Rattle.std.specs.Prelude.{◌≡◌, IfOk, map, string_bytes};
ghost use Rattle.std.specs.List.{flat_map};
ghost use Rattle.cool_faults.specs.Files.{bytes_of};
ghost use Rattle.cool_explanations.specs.Texts.{warning_line, warning_text};

use crate::source_line::source_line;
use crate::text::{file_of, name_of};
use cool_faults::shown;
use cool_mend::Notice;
use cool_syntax::Place;
use std::alloc::{AllocError, Global};

/// The warnings about files of these names, one after the other. Returns `Err` only if memory runs out.
pub(crate) fn warnings_text(
    alloc: Global,
    names: &[String],
    files: &[Vec<u8>],
    all: &[Notice],
) -> Result<Vec<u8>, AllocError>
    ensures { IfOk result (λ text. text.items ≡ flat_map (warning_text (map string_bytes names.now) (bytes_of files.now)) all.now) }
{
    let mut text = Vec::new(alloc);
    for notice in all {
        text.extend_from_slice(&warning_text(alloc, names, files, notice)?)?;
    }
    Ok(text)
}

/// A warning, with its source line. Returns `Err` only if memory runs out.
fn warning_text(
    alloc: Global,
    names: &[String],
    files: &[Vec<u8>],
    notice: &Notice,
) -> Result<Vec<u8>, AllocError>
    ensures { IfOk result (λ text. text.items ≡ warning_text (map string_bytes names.now) (bytes_of files.now) notice.now) }
{
    let Place { file, line, byte } = notice.at;
    let mut text = warning_line(alloc, names, notice)?;
    text.extend_from_slice(&source_line(
        alloc,
        file_of(files, file),
        line,
        byte as usize,
        notice.end,
    )?)?;
    Ok(text)
}

/// The line of a warning: its file and line, and its words. Returns `Err` only if memory runs out.
fn warning_line(alloc: Global, names: &[String], notice: &Notice) -> Result<Vec<u8>, AllocError>
    ensures { IfOk result (λ line. line.items ≡ warning_line (map string_bytes names.now) notice.now) }
{
    let number = notice.at.line;
    let mut line = shown(alloc, name_of(names, notice.at.file))?;
    line.extend_from_slice(format!(in alloc; ":{number}: warning: ")?.as_bytes())?;
    line.extend_from_slice(&notice.words)?;
    line.extend_from_slice(b"\n")?;
    Ok(line)
}
