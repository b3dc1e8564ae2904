//! `make_fixes` makes the fixes that are suggested for the errors of files: the first one of each error, from the end of the files to their beginning.

ghost use Rattle.std.specs.Prelude.{◌≤◌, IfOk, length};
ghost use Rattle.cool_syntax.specs.declared.TheConstants.{MOST_FILES, MOST_SOURCE_BYTES};
ghost use Rattle.cool_faults.specs.Files.{bytes_of, total};
ghost use Rattle.cool_mend.specs.AfterFixes.{AreMade, IsSameEdit};

use crate::edit::Edit;
use crate::editing::{append_copies, edited};
use crate::explanation::Explanation;
use std::alloc::{AllocError, Global};

/// Edits, and the files after them.
#[derive(Drop)]
pub(crate) struct Fixed {
    pub(crate) edits: Vec<Edit>,
    pub(crate) files: Vec<Vec<u8>>,
}

/// The fixes of files with these explanations that change no byte of another fix, and the files after them. Returns `Err` only if memory runs out.
pub(crate) fn make_fixes(
    alloc: Global,
    files: &[Vec<u8>],
    explained: &[Explanation],
) -> Result<Fixed, AllocError>
    requires few { length files.now ≤ MOST_FILES }
    requires small { total (bytes_of files.now) ≤ MOST_SOURCE_BYTES }
    ensures made { IfOk result (λ it. AreMade (bytes_of files.now) explained.now it.edits.items (bytes_of it.files.items)) }
    ensures few { IfOk result (λ it. length it.files.items ≤ MOST_FILES) }
    ensures small { IfOk result (λ it. total (bytes_of it.files.items) ≤ MOST_SOURCE_BYTES) }
{
    let mut all = Vec::new(alloc);
    append_copies(alloc, &mut all, files)?;
    let mut edits: Vec<Edit> = Vec::new(alloc);
    for index in (0..explained.len()).rev() {
        let Some(mend) = explained[index].mends.first() else {
            continue;
        };
        if !is_in_front(&mend.edit, &edits) {
            continue;
        }
        let edit = copy_of(alloc, &mend.edit)?;
        if let Some(new) = edited(alloc, &all, &edit)? {
            all = new;
            edits.push(edit)?;
        }
    }
    Ok(Fixed { edits, files: all })
}

/// Whether an edit ends in front of the last of these, and is not the same insertion.
fn is_in_front(edit: &Edit, edits: &[Edit]) -> bool {
    match edits.last() {
        Some(last) => {
            let is_same = edit.start == last.start && edit.text.as_slice() == last.text.as_slice();
            edit.file < last.file || (edit.file == last.file && edit.end <= last.start && !is_same)
        }
        None => true,
    }
}

/// A copy of an edit. Returns `Err` only if memory runs out.
fn copy_of(alloc: Global, edit: &Edit) -> Result<Edit, AllocError>
    ensures { IfOk result (IsSameEdit edit.now) }
{
    Ok(Edit {
        file: edit.file,
        start: edit.start,
        end: edit.end,
        text: Vec::from_slice(alloc, &edit.text)?,
    })
}
