//! `mend_of` adds to a suggested fix the words that describe its edit.

ghost use Rattle.std.specs.Prelude.{◌≡◌, ◌-◌, IfOk, drop, take};
ghost use Rattle.cool_faults.specs.Files.{bytes_of};
ghost use Rattle.cool_mend.specs.Words.{HasWords, fix_words};

use crate::edit::Edit;
use crate::explanation::Mend;
use crate::range::file_of;
use crate::search::Found;
use cool_guess::{Reason, reason_words};
use std::alloc::{AllocError, Global};

/// The edit of files that was found, with its words. Returns `Err` only if memory runs out.
pub(crate) fn mend_of(alloc: Global, files: &[Vec<u8>], found: Found) -> Result<Mend, AllocError>
    ensures edit { IfOk result (λ mend. mend.edit ≡ found.edit) }
    ensures words { IfOk result (HasWords (bytes_of files.now)) }
{
    let Found {
        edit,
        reason,
        elsewhere,
        ..
    } = found;
    let words = fix_words(alloc, files, &edit, reason, elsewhere)?;
    Ok(Mend { edit, words })
}

/// The words on an edit of files for this reason, with a remark if it changes another feature than that of the fault. Returns `Err` only if memory runs
/// out.
fn fix_words(
    alloc: Global,
    files: &[Vec<u8>],
    edit: &Edit,
    reason: Reason,
    elsewhere: bool,
) -> Result<Vec<u8>, AllocError>
    ensures { IfOk result (λ words. words.items ≡ fix_words reason elsewhere edit.now (bytes_of files.now)) }
{
    let old = taken(file_of(files, edit.file), edit);
    let mut words = reason_words(alloc, old, &edit.text, reason)?;
    if elsewhere {
        words.extend_from_slice(b"; this changes another feature")?;
    }
    Ok(words)
}

/// The bytes that an edit takes away from a file with these bytes.
pub(crate) fn taken<'a>(bytes: &'a [u8], edit: &Edit) -> &'a [u8]
    ensures { result.now ≡ take (edit.now.end - edit.now.start) (drop edit.now.start bytes.now) }
{
    if edit.start >= bytes.len() {
        return b"";
    }
    let rest = &bytes[edit.start..];
    let size = edit.end.saturating_sub(edit.start);
    if size < rest.len() {
        &rest[..size]
    } else {
        rest
    }
}
