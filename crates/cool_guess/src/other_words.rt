//! `advice` gives sentences of advice about words, signs and forms of other languages in a Cool text.

use crate::candidate::Candidates;
use crate::hint::{Hint, hint_words};
use crate::inherited::{class_below, redefinition};
use crate::kind::{Kind, kind_of};
use crate::lexeme::{Lexeme, word_at, word_before};
use crate::names::is_among;
use crate::signs::ADVICE;
use cool_classes::{INT, STRING, Ty};
use cool_faults::Fault;
use std::alloc::{AllocError, Global};

/// The words on the lexeme at a position and on the one before it. Returns `Err` only if memory runs out.
pub fn advice(
    alloc: Global,
    bytes: &[u8],
    lexemes: &[Lexeme],
    index: usize,
) -> Result<Vec<Vec<u8>>, AllocError> {
    let around = Candidates::new(alloc, bytes, lexemes);
    let mut all = Vec::new(alloc);
    match around.sign_hint(index) {
        Some(hint) => add_words(alloc, &mut all, hint)?,
        None => add_said(alloc, &mut all, &ADVICE, around.word(index))?,
    }
    add_said(alloc, &mut all, &ADVICE, around.word_before(index, 1))?;
    if let Some(words) = redefinition(alloc, &around, index)? {
        all.push(words)?;
    }
    if let Some(words) = class_below(alloc, &around, index)? {
        all.push(words)?;
    }
    if is_attribute(bytes, lexemes, index) {
        add_words(alloc, &mut all, Hint::NoFieldAccess)?;
    }
    if let Some(hint) = foreign_form(alloc, bytes, lexemes, index) {
        add_words(alloc, &mut all, hint)?;
    }
    Ok(all)
}

/// The hint on a form of another language at a position, for which no edit at one place will do.
fn foreign_form(alloc: Global, bytes: &[u8], lexemes: &[Lexeme], index: usize) -> Option<Hint> {
    let around = Candidates::new(alloc, bytes, lexemes);
    if matches!(bytes, [254, 255, ..] | [255, 254, ..]) {
        return Some(Hint::NoUtf16);
    }
    if let Some(hint) = around.foreign_hint(index) {
        return Some(hint);
    }
    if around.is_value_assigned(index) {
        return Some(Hint::NameAssigned);
    }
    if around.lacks_branch(index) {
        return Some(Hint::EmptyBranch);
    }
    let is_constant = matches!(kind_of(around.word(index)), Kind::Number | Kind::String);
    if is_constant && around.word_before(index, 1) == b"of".as_slice() {
        return Some(Hint::BranchOfClass);
    }
    None
}

/// The words on a fault of typing whose two types tell more. Returns `Err` only if memory runs out.
pub fn type_advice(alloc: Global, fault: &Fault) -> Result<Vec<Vec<u8>>, AllocError> {
    let mut all = Vec::new(alloc);
    if let Fault::Typing(fault) = fault {
        if let (Some(Ty::Class(INT)), Some(Ty::Class(STRING))) = (fault.found, fault.due) {
            add_words(alloc, &mut all, Hint::NoTextOfInt)?;
        }
    }
    Ok(all)
}

/// Adds what a table says of a word.
fn add_said(
    alloc: Global,
    all: &mut Vec<Vec<u8>>,
    table: &[(&str, Hint)],
    word: &[u8],
) -> Result<(), AllocError> {
    for (known, hint) in table {
        if known.as_bytes() == word {
            add_words(alloc, all, *hint)?;
        }
    }
    Ok(())
}

/// Adds the words of a hint, if they are not there.
fn add_words(alloc: Global, all: &mut Vec<Vec<u8>>, hint: Hint) -> Result<(), AllocError> {
    if is_among(all, hint_words(hint).as_bytes()) {
        return Ok(());
    }
    all.push(Vec::from_slice(alloc, hint_words(hint).as_bytes())?)?;
    Ok(())
}

/// Whether something is said of the lexeme at a position that no edit of one place does.
pub fn is_advised(bytes: &[u8], lexemes: &[Lexeme], index: usize) -> bool {
    matches!(
        word_at(bytes, lexemes, index),
        b"and" | b"or" | b"&" | b"|" | b"%" | b"["
    ) || is_attribute(bytes, lexemes, index)
}

/// Whether a name behind a dot has no arguments.
fn is_attribute(bytes: &[u8], lexemes: &[Lexeme], index: usize) -> bool {
    word_before(bytes, lexemes, index, 2) == b".".as_slice()
        && word_at(bytes, lexemes, index) != b"(".as_slice()
}
