//! `text_of` writes explanations and warnings as text for people.

ghost use Rattle.std.specs.Prelude.{◌≡◌, IfOk, length, map, option_map, string_bytes};
ghost use Rattle.std.specs.List.{AllByRecursion, flat_map};
ghost use Rattle.cool_syntax.specs.TokenFacts.{IsPlaced};
ghost use Rattle.cool_faults.specs.Files.{bytes_of};
ghost use Rattle.cool_faults.specs.Verdicts.{place_of};
ghost use Rattle.cool_mend.specs.AfterFixes.{ArePlaced};
ghost use Rattle.cool_explanations.specs.Texts.{after_text, cure_text, explanation_text, file_of, mend_line, mend_text, note_line, of_file, other_text, other_words, text_of};

use crate::changes::changed_text;
use crate::cures::cure_of;
use crate::facts::facts;
use crate::source_line::source_line;
use crate::values::value_text;
use crate::warnings::warnings_text;
use cool_faults::{fault_text, shown};
use cool_mend::{AfterFixes, Explained, Explanation, Mend};
use cool_syntax::Place;
use std::alloc::{AllocError, Global};

/// The explanations of faults of files of these names, one after the other, and then the warnings. Returns `Err` only if memory runs out.
pub(crate) fn text_of(
    alloc: Global,
    names: &[String],
    files: &[Vec<u8>],
    told: &Explained,
) -> Result<Vec<u8>, AllocError>
    requires placed { AllByRecursion (λ x. IsPlaced (length names.now) (place_of x.fault)) told.now.explanations.items }
    requires after { AllByRecursion (ArePlaced (length names.now)) told.now.after_fixes.items }
    ensures { IfOk result (λ text. text.items ≡ text_of (map string_bytes names.now) (bytes_of files.now) told.now) }
{
    let mut text = explanations_text(alloc, names, files, &told.explanations)?;
    text.extend_from_slice(&all_after_text(alloc, names, &told.after_fixes)?)?;
    text.extend_from_slice(&warnings_text(alloc, names, files, &told.notices)?)?;
    Ok(text)
}

/// The explanations of faults that files of these names have after fixes, step by step. Returns `Err` only if memory runs out.
fn all_after_text(
    alloc: Global,
    names: &[String],
    all: &[AfterFixes],
) -> Result<Vec<u8>, AllocError>
    requires { AllByRecursion (ArePlaced (length names.now)) all.now }
    ensures { IfOk result (λ text. text.items ≡ flat_map (after_text (map string_bytes names.now)) all.now) }
{
    let mut text = Vec::new(alloc);
    for step in all {
        text.extend_from_slice(&after_text(alloc, names, step)?)?;
    }
    Ok(text)
}

/// The same of one step. Returns `Err` only if memory runs out.
fn after_text(alloc: Global, names: &[String], step: &AfterFixes) -> Result<Vec<u8>, AllocError>
    requires { ArePlaced (length names.now) step.now }
    ensures { IfOk result (λ text. text.items ≡ after_text (map string_bytes names.now) step.now) }
{
    let mut text = Vec::from_slice(alloc, b"after the fixes above, these errors come next:\n")?;
    text.extend_from_slice(&explanations_text(alloc, names, &step.files, &step.explanations)?)?;
    Ok(text)
}

/// The explanations of faults of files of these names, one after the other. Returns `Err` only if memory runs out.
fn explanations_text(
    alloc: Global,
    names: &[String],
    files: &[Vec<u8>],
    all: &[Explanation],
) -> Result<Vec<u8>, AllocError>
    requires { AllByRecursion (λ x. IsPlaced (length names.now) (place_of x.fault)) all.now }
    ensures { IfOk result (λ text. text.items ≡ flat_map (explanation_text (map string_bytes names.now) (bytes_of files.now)) all.now) }
{
    let mut text = Vec::new(alloc);
    for told in all {
        text.extend_from_slice(&explanation_text(alloc, names, files, told)?)?;
    }
    Ok(text)
}

/// The explanation of a fault. Returns `Err` only if memory runs out.
fn explanation_text(
    alloc: Global,
    names: &[String],
    files: &[Vec<u8>],
    told: &Explanation,
) -> Result<Vec<u8>, AllocError>
    requires { IsPlaced (length names.now) (place_of told.now.fault) }
    ensures { IfOk result (λ text. text.items ≡ explanation_text (map string_bytes names.now) (bytes_of files.now) told.now) }
{
    let at = told.fault.place();
    let file = file_of(files, at.file);
    let mut text = fault_text(alloc, names, &told.fault)?;
    text.extend_from_slice(&source_line(alloc, file, at.line, at.byte as usize, told.here.end)?)?;
    text.extend_from_slice(&note_lines(alloc, &facts(alloc, file, told)?)?)?;
    text.extend_from_slice(&value_text(alloc, files, &told.values)?)?;
    text.extend_from_slice(&other_text(alloc, names, at.file, told.other)?)?;
    text.extend_from_slice(&cure_text(alloc, cure_of(told))?)?;
    text.extend_from_slice(&mends_text(alloc, names, files, at.file, &told.mends)?)?;
    Ok(text)
}

/// The text on the edits that were tried, for a fault of this file. Returns `Err` only if memory runs out.
fn mends_text(
    alloc: Global,
    names: &[String],
    files: &[Vec<u8>],
    file: u32,
    mends: &[Mend],
) -> Result<Vec<u8>, AllocError>
    ensures { IfOk result (λ text. text.items ≡ flat_map (mend_text (map string_bytes names.now) (bytes_of files.now) file) mends.now) }
{
    let mut text = Vec::new(alloc);
    for mend in mends {
        text.extend_from_slice(&mend_text(alloc, names, files, file, mend)?)?;
    }
    Ok(text)
}

/// The file of this number, or none of its bytes.
pub(crate) fn file_of(files: &[Vec<u8>], file: u32) -> &[u8]
    ensures { result.now ≡ file_of (bytes_of files.now) file }
{
    match files.get(file as usize) {
        Some(bytes) => bytes.as_slice(),
        None => b"",
    }
}

/// A line of words below the source line. Returns `Err` only if memory runs out.
pub(crate) fn note_line(alloc: Global, words: &[u8]) -> Result<Vec<u8>, AllocError>
    ensures { IfOk result (λ line. line.items ≡ note_line words.now) }
{
    let mut line = Vec::from_slice(alloc, b"      = ")?;
    line.extend_from_slice(&shown(alloc, words)?)?;
    line.extend_from_slice(b"\n")?;
    Ok(line)
}

/// A line for each of these words. Returns `Err` only if memory runs out.
fn note_lines(alloc: Global, all: &[Vec<u8>]) -> Result<Vec<u8>, AllocError>
    ensures { IfOk result (λ text. text.items ≡ flat_map note_line (bytes_of all.now)) }
{
    let mut text = Vec::new(alloc);
    for words in all {
        text.extend_from_slice(&note_line(alloc, words)?)?;
    }
    Ok(text)
}

/// The place of the other definition of a thing that is defined twice, for a fault of this file. Returns `Err` only if memory runs out.
fn other_text(
    alloc: Global,
    names: &[String],
    file: u32,
    other: Option<Place>,
) -> Result<Vec<u8>, AllocError>
    ensures { IfOk result (λ text. text.items ≡ other_text (map string_bytes names.now) file other) }
{
    match other {
        Some(at) => note_line(alloc, &other_words(alloc, names, at, file)?),
        None => Ok(Vec::new(alloc)),
    }
}

/// The line of the other definition, and its file, if that is another one than this. Returns `Err` only if memory runs out.
fn other_words(alloc: Global, names: &[String], at: Place, file: u32) -> Result<Vec<u8>, AllocError>
    ensures { IfOk result (λ words. words.items ≡ other_words (map string_bytes names.now) at file) }
{
    let line = at.line;
    let mut words = format!(in alloc; "the other definition is in line {line}")?.into_bytes();
    words.extend_from_slice(&of_file(alloc, names, file, at.file, b" of ")?)?;
    Ok(words)
}

/// The name of a file behind this word, if it is another one than that of the fault. Returns `Err` only if memory runs out.
fn of_file(
    alloc: Global,
    names: &[String],
    file: u32,
    other: u32,
    word: &[u8],
) -> Result<Vec<u8>, AllocError>
    ensures { IfOk result (λ text. text.items ≡ of_file (map string_bytes names.now) file other word.now) }
{
    let mut text = Vec::new(alloc);
    if other != file {
        text.extend_from_slice(word)?;
        text.extend_from_slice(name_of(names, other))?;
    }
    Ok(text)
}

/// The name of the file of this number, or nothing.
pub(crate) fn name_of(names: &[String], file: u32) -> &[u8]
    ensures { result.now ≡ file_of (map string_bytes names.now) file }
{
    match names.get(file as usize) {
        Some(name) => name.as_bytes(),
        None => b"",
    }
}

/// The general advice on a fault, if it is given. Returns `Err` only if memory runs out.
fn cure_text(alloc: Global, cure: Option<&'static str>) -> Result<Vec<u8>, AllocError>
    ensures { IfOk result (λ text. text.items ≡ cure_text (option_map (λ words. words.now) cure.entry)) }
{
    match cure {
        Some(cure) => {
            let mut words = Vec::from_slice(alloc, b"to fix it: ")?;
            words.extend_from_slice(cure.as_bytes())?;
            note_line(alloc, &words)
        }
        None => Ok(Vec::new(alloc)),
    }
}

/// The words on a mend, and the lines that it changes, for a fault of this file. Returns `Err` only if memory runs out.
fn mend_text(
    alloc: Global,
    names: &[String],
    files: &[Vec<u8>],
    file: u32,
    mend: &Mend,
) -> Result<Vec<u8>, AllocError>
    ensures { IfOk result (λ text. text.items ≡ mend_text (map string_bytes names.now) (bytes_of files.now) file mend.now) }
{
    let mut text = mend_line(alloc, names, file, mend)?;
    text.extend_from_slice(&changed_text(alloc, file_of(files, mend.edit.file), &mend.edit)?)?;
    Ok(text)
}

/// The words on a mend, for a fault of this file. Returns `Err` only if memory runs out.
fn mend_line(alloc: Global, names: &[String], file: u32, mend: &Mend) -> Result<Vec<u8>, AllocError>
    ensures { IfOk result (λ line. line.items ≡ mend_line (map string_bytes names.now) file mend.now) }
{
    let mut words = Vec::from_slice(alloc, &mend.words)?;
    words.extend_from_slice(&of_file(alloc, names, file, mend.edit.file, b", in ")?)?;
    words.extend_from_slice(b":")?;
    note_line(alloc, &words)
}
