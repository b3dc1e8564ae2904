//! `mends` tries an edit: it checks the edited files and says whether the edit fixes the compile-time error.

ghost use Rattle.std.specs.Prelude.{◌≡◌, ◌<◌, ◌≤◌, IfOk, IfSome, length, true};
ghost use Rattle.std.specs.List.{AllByRecursion};
ghost use Rattle.cool_syntax.specs.TokenFacts.{IsPlaced};
ghost use Rattle.cool_syntax.specs.declared.TheConstants.{MOST_FILES, MOST_SOURCE_BYTES};
ghost use Rattle.cool_faults.specs.Files.{bytes_of, total};
ghost use Rattle.cool_faults.specs.Verdicts.{IsFaultList, place_of};
ghost use Rattle.cool_mend.specs.Edits.{IsEdit};
ghost use Rattle.cool_mend.specs.Mends.{Mends};

use crate::edit::Edit;
use crate::editing::edited;
use crate::mended::is_mended;
use cool_faults::{Fault, Verdict, accept};
use cool_lexer::{LexError, lex};
use cool_parser::{ParseError, parse};
use std::alloc::{AllocError, Global};

/// Whether an edit mends the fault of this number of files that have these faults, as far as one trial shows. Returns `Err` only if memory runs out.
pub fn mends(
    alloc: Global,
    files: &[Vec<u8>],
    before: &[Fault],
    number: usize,
    edit: &Edit,
) -> Result<bool, AllocError>
    ensures edit { IfOk result (λ answer. answer ≡ true → IsEdit (bytes_of files.now) edit.now) }
    ensures mends { IfOk result (λ answer. answer ≡ true → Mends (bytes_of files.now) before.now number edit.now) }
{
    match mending(alloc, files, before, number, edit)? {
        Some(_) => Ok(true),
        None => Ok(false),
    }
}

/// The number of faults that an edit leaves if it mends the fault of this number of files with these faults; `None` if a trial does not show that it mends
/// that fault. Returns `Err` only if memory runs out.
pub(crate) fn mending(
    alloc: Global,
    files: &[Vec<u8>],
    before: &[Fault],
    number: usize,
    edit: &Edit,
) -> Result<Option<usize>, AllocError>
    ensures edit { IfOk result (λ answer. IfSome answer (λ _. IsEdit (bytes_of files.now) edit.now)) }
    ensures mends { IfOk result (λ answer. IfSome answer (λ _. Mends (bytes_of files.now) before.now number edit.now)) }
{
    if number >= before.len() {
        return Ok(None);
    }
    let Some(new) = edited(alloc, files, edit)? else {
        return Ok(None);
    };
    let after = fault_list(alloc, &new)?;
    if is_mended(files, &new, edit, before, number, &after) {
        Ok(Some(after.len()))
    } else {
        Ok(None)
    }
}

/// The first fault of lexemes or syntax of a file, or none where it has none. Returns `Err` only if memory runs out.
pub(crate) fn text_fault(
    alloc: Global,
    file: u32,
    bytes: &[u8],
) -> Result<Option<Fault>, AllocError>
    requires { length bytes.now ≤ MOST_SOURCE_BYTES }
{
    let lexed = match lex(alloc, file, bytes) {
        Ok(lexed) => lexed,
        Err(LexError::Fault(fault)) => return Ok(Some(Fault::Lex(fault))),
        Err(LexError::Memory) => return Err(AllocError),
    };
    match parse(alloc, file, lexed.tokens.as_slice(), lexed.end) {
        Ok(_) => Ok(None),
        Err(ParseError::Fault(fault)) => Ok(Some(Fault::Syntax(fault))),
        Err(ParseError::Memory) => Err(AllocError),
    }
}

/// The fault list of one file. Returns `Err` only if memory runs out.
pub(crate) fn one_file_faults(alloc: Global, bytes: &[u8]) -> Result<Vec<Fault>, AllocError>
    requires { length bytes.now ≤ MOST_SOURCE_BYTES }
{
    let files = vec![in alloc; Vec::from_slice(alloc, bytes)?]?;
    fault_list(alloc, &files)
}

/// The fault list of files. Returns `Err` only if memory runs out.
pub(crate) fn fault_list(alloc: Global, files: &[Vec<u8>]) -> Result<Vec<Fault>, AllocError>
    requires few { length files.now ≤ MOST_FILES }
    requires small { total (bytes_of files.now) ≤ MOST_SOURCE_BYTES }
    ensures list { IfOk result (λ faults. IsFaultList (bytes_of files.now) faults.items) }
    ensures placed { 0 < length (bytes_of files.now)
        → IfOk result (λ faults. AllByRecursion (λ f. IsPlaced (length (bytes_of files.now)) (place_of f)) faults.items) }
{
    match accept(alloc, files)? {
        Verdict::Accepted(_) => Ok(Vec::new(alloc)),
        Verdict::Refused(faults) => Ok(faults.into_vec()),
    }
}
