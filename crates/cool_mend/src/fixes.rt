//! `fixes` finds the edits that fix a compile-time error: those that the search finds, as far as the error is gone after them in all of the files.

ghost use Rattle.std.specs.Prelude.{IfOk};
ghost use Rattle.std.specs.List.{AllByRecursion};
ghost use Rattle.cool_faults.specs.Files.{bytes_of};
ghost use Rattle.cool_mend.specs.Explanations.{IsMend};

use crate::edit::Edit;
use crate::explanation::Mend;
use crate::range::file_of;
use crate::search::{Found, Search};
use crate::trial::mending;
use crate::words::{mend_of, taken};
use cool_faults::Fault;
use std::alloc::{AllocError, Global};

/// The most bytes that are tried for all faults of a call, of files and of excerpts each: so many times the bytes of the files, but at least and at most these
/// numbers of bytes.
const TRIED_TIMES: usize = 64;

const FEWEST_TRIED_BYTES: usize = 1_048_576;

const MOST_TRIED_BYTES: usize = 8_388_608;

/// The numbers of bytes that may still be tried.
#[derive(Clone, Copy)]
pub(crate) struct Budget {
    pub(crate) files: usize,
    pub(crate) excerpts: usize,
}

impl Budget {
    /// The budget of a call for these files.
    pub(crate) fn new(files: &[Vec<u8>]) -> Budget {
        let bytes = size_of(files)
            .saturating_mul(TRIED_TIMES)
            .max(FEWEST_TRIED_BYTES)
            .min(MOST_TRIED_BYTES);
        Budget {
            files: bytes,
            excerpts: bytes,
        }
    }
}

/// The edits that mend the fault of this number in all of the files: the likeliest one, and one that puts another name in the same place. `left` is the
/// number of bytes of files that may still be tried. Returns `Err` only if memory runs out.
pub(crate) fn fixes(
    alloc: Global,
    files: &[Vec<u8>],
    faults: &[Fault],
    number: usize,
    search: &mut Search<'_>,
    left: &mut usize,
) -> Result<Vec<Mend>, AllocError>
    ensures { IfOk result (λ all. AllByRecursion (IsMend (bytes_of files.now) faults.now number) all.items) }
{
    if size_of(files) > *left {
        return Ok(Vec::new(alloc));
    }
    let found = search.find(number)?;
    tried(alloc, files, faults, number, found, left)
}

/// Those of the edits that mend the fault of this number in all of the files, and bring no other fault that the fault cannot have hidden. If that is their
/// only fault, an edit that leaves none goes before one that leaves another. Returns `Err` only if memory runs out.
fn tried(
    alloc: Global,
    files: &[Vec<u8>],
    faults: &[Fault],
    number: usize,
    found: Vec<Found>,
    left: &mut usize,
) -> Result<Vec<Mend>, AllocError>
    ensures { IfOk result (λ all. AllByRecursion (IsMend (bytes_of files.now) faults.now number) all.items) }
{
    let size = size_of(files);
    let mut all: Vec<Mend> = Vec::new(alloc);
    let mut is_sure = false;
    for each in found {
        if size > *left {
            break;
        }
        if is_sure && !is_other_name(files, &all, &each.edit) {
            continue;
        }
        *left -= size;
        if let Some(rest) = mending(alloc, files, faults, number, &each.edit)? {
            if rest >= faults.len() && !each.may_show_more {
                continue;
            }
            let is_good = rest == 0 || faults.len() > 1 || each.is_step;
            let mend = mend_of(alloc, files, each)?;
            if is_sure {
                if is_good {
                    all.push(mend)?;
                    return Ok(all);
                }
            } else if is_good || all.is_empty() {
                is_sure = is_good;
                all = vec![in alloc; mend]?;
            }
        }
    }
    Ok(all)
}

/// Whether an edit puts another name in the place of the one in whose place the first of these fixes puts a name.
fn is_other_name(files: &[Vec<u8>], fixes: &[Mend], edit: &Edit) -> bool {
    let Some(first) = fixes.first() else {
        return false;
    };
    let here = &first.edit;
    here.file == edit.file
        && here.start == edit.start
        && here.end == edit.end
        && is_name(&here.text)
        && is_name(&edit.text)
        && is_name(taken(file_of(files, edit.file), edit))
}

/// Whether bytes are a name.
fn is_name(bytes: &[u8]) -> bool {
    for byte in bytes {
        if !byte.is_ascii_alphanumeric() && *byte != b'_' {
            return false;
        }
    }
    !bytes.is_empty()
}

/// The number of bytes of files, or the greatest number if it is smaller.
pub(crate) fn size_of(files: &[Vec<u8>]) -> usize {
    let mut size: usize = 0;
    for file in files {
        size = size.saturating_add(file.len());
    }
    size
}
