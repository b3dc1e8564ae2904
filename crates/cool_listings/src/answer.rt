//! `files_text` writes the listing of files in an output format, or returns none if the files have no class table or are not a program.

ghost use Rattle.std.specs.Prelude.{◌≡◌, ◌≤◌, length, map, string_bytes, IfOk, true};
ghost use Rattle.std.specs.List.{list_all};
ghost use Rattle.cool_syntax.specs.declared.TheConstants.{MOST_FILES, MOST_SOURCE_BYTES};
ghost use Rattle.cool_faults.specs.Files.{bytes_of, total};
ghost use Rattle.cool_listings.specs.Ends.{IsTextOf, fit, refusal_note};
ghost use Rattle.cool_listings.specs.declared.form.Form.TheVariants.{Code, Marks};

use crate::files::file_marks;
use crate::form::Form;
use crate::line::lines;
use crate::note::{NO_CLASS_TABLE, NO_PROGRAM};
use crate::tokens::token_lines;
use crate::trees::tree_lines;
use cool_emit::{MOST_FILE_NAME, table};
use cool_faults::{Verdict, accept};
use std::alloc::{AllocError, Global};

/// The text that a form writes for files of these names, or none where they are no class table, or no program. Returns `Err` only if memory runs out.
pub fn files_text(
    alloc: Global,
    form: Form,
    names: &[String],
    contents: &[Vec<u8>],
) -> Result<Option<Vec<u8>>, AllocError>
    requires each { length contents.now ≡ length names.now }
    requires fit { fit form (map string_bytes names.now) ≡ true }
    requires few { length contents.now ≤ MOST_FILES }
    requires small { total (bytes_of contents.now) ≤ MOST_SOURCE_BYTES }
    ensures { IfOk result (IsTextOf form (map string_bytes names.now) (bytes_of contents.now)) }
{
    match form {
        Form::Marks => marks_text(alloc, names, contents),
        Form::Code => code_text(alloc, names, contents),
        Form::Tokens => Ok(Some(token_lines(alloc, contents)?)),
        Form::Trees => Ok(Some(tree_lines(alloc, contents)?)),
    }
}

/// The lines of the marks of files, or none where they are no class table. Returns `Err` only if memory runs out.
fn marks_text(
    alloc: Global,
    names: &[String],
    contents: &[Vec<u8>],
) -> Result<Option<Vec<u8>>, AllocError>
    requires few { length contents.now ≤ MOST_FILES }
    requires small { total (bytes_of contents.now) ≤ MOST_SOURCE_BYTES }
    ensures { IfOk result (IsTextOf Marks (map string_bytes names.now) (bytes_of contents.now)) }
{
    let _names = names;
    match file_marks(alloc, contents)? {
        Some(marks) => Ok(Some(lines(alloc, &marks)?)),
        None => Ok(None),
    }
}

/// The lines of the table of code of files of these names, or none where they are no program. Returns `Err` only if memory runs out.
fn code_text(
    alloc: Global,
    names: &[String],
    contents: &[Vec<u8>],
) -> Result<Option<Vec<u8>>, AllocError>
    requires each { length contents.now ≡ length names.now }
    requires fit { fit Code (map string_bytes names.now) ≡ true }
    requires few { length contents.now ≤ MOST_FILES }
    requires small { total (bytes_of contents.now) ≤ MOST_SOURCE_BYTES }
    ensures { IfOk result (IsTextOf Code (map string_bytes names.now) (bytes_of contents.now)) }
{
    match accept(alloc, contents)? {
        Verdict::Accepted(program) => Ok(Some(table(alloc, &program, names)?)),
        Verdict::Refused(_) => Ok(None),
    }
}

/// Whether names fit a form: those of a program whose code is told are as short as a build wants them.
pub fn fit(form: Form, names: &[String]) -> bool
    ensures { result ≡ fit form (map string_bytes names.now) }
{
    match form {
        Form::Marks => true,
        Form::Code => are_short(names),
        Form::Tokens => true,
        Form::Trees => true,
    }
}

/// Whether each name has at most 4,096 bytes.
fn are_short(names: &[String]) -> bool
    ensures { result ≡ fit Code (map string_bytes names.now) }
{
    for name in names {
        if name.len() > MOST_FILE_NAME {
            return false;
        }
    }
    true
}

/// The note of files for which a form writes nothing.
pub fn refusal_note(form: Form) -> &'static [u8]
    ensures { result.now ≡ refusal_note form }
{
    match form {
        Form::Marks => NO_CLASS_TABLE,
        Form::Code => NO_PROGRAM,
        // All files have tokens and trees, if only a fault, so no call comes here (`HaveNone`).
        Form::Tokens => b"",
        Form::Trees => b"",
    }
}
