//! `files_answer` answers a request for a listing of files with the text of the listing, or with the message that the files have none.

ghost use Rattle.std.specs.Prelude.{◌≡◌, ◌≤◌, length, map, string_bytes, IfOk, true};
ghost use Rattle.cool_syntax.specs.declared.TheConstants.{MOST_FILES, MOST_SOURCE_BYTES};
ghost use Rattle.cool_faults.specs.Files.{bytes_of, total};
ghost use Rattle.cool_listings.specs.Ends.{IsAnswerOf, fit, spec_of};

use crate::answer::{files_text, fit, refusal_note};
use crate::form::Form;
use crate::note::{BAD_COMMAND_LINE, FILES_TOO_LARGE, PROGRAM, TOO_MANY_FILES};
use cool_sources::{Answer, Notes, Task};
use std::alloc::{AllocError, Global};

impl Task for Form {
    ghost spec = { spec_of };

    fn notes(&self) -> Notes {
        Notes {
            program: PROGRAM,
            usage: BAD_COMMAND_LINE,
            too_many: TOO_MANY_FILES,
            too_large: FILES_TOO_LARGE,
        }
    }

    fn accepts(&self, names: &[String]) -> bool {
        fit(*self, names)
    }

    fn answer(
        &self,
        alloc: Global,
        names: &[String],
        contents: &[Vec<u8>],
    ) -> Result<Answer, AllocError> {
        files_answer(alloc, *self, names, contents)
    }
}

/// The answer on files of these names: their text, or the note that there is none. Returns `Err` only if memory runs out.
fn files_answer(
    alloc: Global,
    form: Form,
    names: &[String],
    contents: &[Vec<u8>],
) -> Result<Answer, AllocError>
    requires each { length contents.now ≡ length names.now }
    requires fit { fit form (map string_bytes names.now) ≡ true }
    requires few { length contents.now ≤ MOST_FILES }
    requires small { total (bytes_of contents.now) ≤ MOST_SOURCE_BYTES }
    ensures { IfOk result (IsAnswerOf form (map string_bytes names.now) (bytes_of contents.now)) }
{
    match files_text(alloc, form, names, contents)? {
        Some(text) => Ok(Answer {
            faulty: false,
            text,
            note: b"",
        }),
        None => Ok(Answer {
            faulty: true,
            text: Vec::new(alloc),
            note: refusal_note(form),
        }),
    }
}
