//! `explanation` makes the explanation of a compile-time error: the types, methods and locations that it mentions, the advice on it, and its fixes.

ghost use Rattle.std.specs.Prelude.{◌≡◌, IfOk};
ghost use Rattle.cool_faults.specs.Files.{bytes_of};
ghost use Rattle.cool_mend.specs.Explanations.{HaveTable, IsTold};

use crate::explanation::{Explanation, Mend};
use crate::range::range_at;
use crate::types::{fault_methods, fault_types, word_at};
use crate::values::fault_values;
use cool_classes::ClassTable;
use cool_faults::Fault;
use cool_guess::{Lexeme, Source, advice, index_at, other_definition, type_advice};
use std::alloc::{AllocError, Global};

/// The explanation of a fault, with these edits that mend it. Returns `Err` only if memory runs out.
pub(crate) fn explanation(
    alloc: Global,
    files: &[Vec<u8>],
    sources: &[Source<'_>],
    classes: &Option<ClassTable>,
    fault: &Fault,
    mends: Vec<Mend>,
) -> Result<Explanation, AllocError>
    requires classes { HaveTable (bytes_of files.now) classes.now }
    ensures fault { IfOk result (λ x. x.fault ≡ fault.now) }
    ensures told { IfOk result (IsTold (bytes_of files.now)) }
    ensures mends { IfOk result (λ x. x.mends ≡ mends) }
{
    let at = fault.place();
    let (bytes, all): (&[u8], &[Lexeme]) = match sources.get(at.file as usize) {
        Some(source) => (source.bytes, source.lexemes.as_slice()),
        None => (b"", &[]),
    };
    let index = index_at(all, at.byte as usize);
    let here = range_at(alloc, files, at)?;
    let word = word_at(files, fault, here);
    let mut said = advice(alloc, bytes, all, index)?;
    said.append(&mut type_advice(alloc, fault)?)?;
    Ok(Explanation {
        fault: *fault,
        here,
        before: lexeme_before(all, index, at.byte as usize),
        types: fault_types(alloc, classes, fault)?,
        methods: fault_methods(alloc, classes, fault, word)?,
        other: other_definition(alloc, files, fault)?,
        values: fault_values(alloc, classes, fault)?,
        said: besides(alloc, said, &mends)?,
        mends,
    })
}

/// The words that are said, except those of the fixes. Returns `Err` only if memory runs out.
fn besides(alloc: Global, said: Vec<Vec<u8>>, mends: &[Mend]) -> Result<Vec<Vec<u8>>, AllocError> {
    let mut others = Vec::new(alloc);
    for words in said {
        if !has_words(mends, &words) {
            others.push(words)?;
        }
    }
    Ok(others)
}

/// Whether one of these fixes has these words.
fn has_words(mends: &[Mend], words: &[u8]) -> bool {
    for mend in mends {
        if mend.words.as_slice() == words {
            return true;
        }
    }
    false
}

/// The lexeme before a byte, where the one of this number is the first that ends behind it; empty at the beginning of the file. If the byte is in the
/// middle of that lexeme, it is the part in front of the byte.
fn lexeme_before(lexemes: &[Lexeme], index: usize, at: usize) -> Lexeme {
    match lexemes.get(index) {
        Some(lexeme) if lexeme.start < at => Lexeme {
            start: lexeme.start,
            end: at,
        },
        _ => match lexemes[..index.min(lexemes.len())].last() {
            Some(lexeme) => *lexeme,
            None => Lexeme { start: 0, end: 0 },
        },
    }
}

/// The files as sources. Returns `Err` only if memory runs out.
pub(crate) fn sources<'a>(
    alloc: Global,
    files: &'a [Vec<u8>],
) -> Result<Vec<Source<'a>>, AllocError> {
    let mut all = Vec::new(alloc);
    for file in files {
        all.push(Source::new(alloc, file)?)?;
    }
    Ok(all)
}
