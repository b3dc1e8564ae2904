//! `files_answer` explains the compile-time errors of files in the chosen output format, as the program `cool_explain` does.

ghost use Rattle.std.specs.Prelude.{◌≡◌, ◌<◌, ◌≤◌, length, map, string_bytes, IfOk};
ghost use Rattle.std.specs.List.{AllByRecursion};
ghost use Rattle.cool_syntax.specs.declared.TheConstants.{MOST_FILES, MOST_SOURCE_BYTES};
ghost use Rattle.cool_syntax.specs.TokenFacts.{IsPlaced};
ghost use Rattle.cool_faults.specs.Files.{bytes_of, total};
ghost use Rattle.cool_faults.specs.Verdicts.{place_of};
ghost use Rattle.cool_mend.specs.AfterFixes.{ArePlaced};
ghost use Rattle.cool_explanations.specs.Ends.{HasFaults, IsAnswerOf, form_text, spec_of};

use crate::form::Form;
use crate::lines::lines_of;
use crate::note::{BAD_COMMAND_LINE, FILES_TOO_LARGE, PROGRAM, TOO_MANY_FILES};
use crate::text::text_of;
use cool_mend::{Explained, Explanation, explain};
use cool_sources::{Answer, Notes, Task};
use std::alloc::{AllocError, Global};

impl Task for Form {
    ghost spec = { spec_of };

    fn notes(&self) -> Notes {
        Notes {
            program: PROGRAM,
            usage: BAD_COMMAND_LINE,
            too_many: TOO_MANY_FILES,
            too_large: FILES_TOO_LARGE,
        }
    }

    fn accepts(&self, names: &[String]) -> bool {
        let _names = names;
        true
    }

    fn answer(
        &self,
        alloc: Global,
        names: &[String],
        contents: &[Vec<u8>],
    ) -> Result<Answer, AllocError> {
        files_answer(alloc, *self, names, contents)
    }
}

/// The answer on files of these names. Returns `Err` only if memory runs out.
fn files_answer(
    alloc: Global,
    form: Form,
    names: &[String],
    contents: &[Vec<u8>],
) -> Result<Answer, AllocError>
    requires some { 0 < length names.now }
    requires each { length contents.now ≡ length names.now }
    requires few { length contents.now ≤ MOST_FILES }
    requires small { total (bytes_of contents.now) ≤ MOST_SOURCE_BYTES }
    ensures { IfOk result (IsAnswerOf form (map string_bytes names.now) (bytes_of contents.now)) }
{
    let told = explain(alloc, contents)?;
    Ok(Answer {
        faulty: has_faults(&told.explanations),
        text: form_text(alloc, form, names, contents, &told)?,
        note: b"",
    })
}

/// Whether explanations explain a fault.
fn has_faults(all: &[Explanation]) -> bool
    ensures { HasFaults result all.now }
{
    match all {
        [] => false,
        [_, ..] => true,
    }
}

/// The text on files of these names, in this form. Returns `Err` only if memory runs out.
fn form_text(
    alloc: Global,
    form: Form,
    names: &[String],
    contents: &[Vec<u8>],
    told: &Explained,
) -> Result<Vec<u8>, AllocError>
    requires placed { AllByRecursion (λ x. IsPlaced (length names.now) (place_of x.fault)) told.now.explanations.items }
    requires after { AllByRecursion (ArePlaced (length names.now)) told.now.after_fixes.items }
    ensures { IfOk result (λ text. text.items ≡ form_text form (map string_bytes names.now) (bytes_of contents.now) told.now) }
{
    match form {
        Form::Text => text_of(alloc, names, contents, told),
        Form::Lines => lines_of(alloc, contents, told),
    }
}
