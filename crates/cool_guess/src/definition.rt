//! `other_definition` finds the earlier definition of a class, method, attribute, formal parameter or `case` branch that is defined twice.

use crate::candidate::Candidates;
use crate::lexeme::{Lexeme, index_at, lexemes, word_at};
use cool_check::TypeKind;
use cool_classes::ClassKind;
use cool_faults::Fault;
use cool_syntax::Place;
use std::alloc::{AllocError, Global};

/// The place of the earlier definition of what a fault says to be defined twice: a class, a method, an attribute, a formal, a branch. Returns `Err` only
/// if memory runs out.
pub fn other_definition(
    alloc: Global,
    files: &[Vec<u8>],
    fault: &Fault,
) -> Result<Option<Place>, AllocError> {
    let sought = match fault {
        Fault::Class(fault) => match fault.kind {
            ClassKind::C1 => Sought::Class,
            ClassKind::F1 => Sought::Method,
            ClassKind::F2 => Sought::Attribute,
            ClassKind::F4 => Sought::Formal,
            _ => return Ok(None),
        },
        Fault::Typing(fault) => match fault.kind {
            TypeKind::E13 => Sought::Branch,
            _ => return Ok(None),
        },
        _ => return Ok(None),
    };
    let place = fault.place();
    let Some(file) = files.get(place.file as usize) else {
        return Ok(None);
    };
    let found = lexemes(alloc, file)?;
    let around = Candidates::new(alloc, file, &found);
    let index = index_at(&found, place.byte as usize);
    match sought {
        Sought::Class => class_before(alloc, files, place.file, around.word(index), index),
        Sought::Attribute => attribute_before(alloc, files, place.file, &around, index),
        _ => Ok(told(place.file, file, before(&around, sought, index))),
    }
}

/// The kind of definition that is sought.
#[derive(Clone, Copy)]
enum Sought {
    Class,
    Method,
    Attribute,
    Formal,
    Branch,
}

/// The place of a lexeme of a file.
fn told(file: u32, bytes: &[u8], lexeme: Option<Lexeme>) -> Option<Place> {
    let lexeme = lexeme?;
    let mut line: u32 = 1;
    for index in 0..lexeme.start.min(bytes.len()) {
        if bytes[index] == b'\n' {
            line = line.saturating_add(1);
        }
    }
    match u32::try_from(lexeme.start) {
        Ok(byte) => Some(Place { file, line, byte }),
        Err(_) => None,
    }
}

/// The first definition of a class of this name, in front of the position in the file of this number.
fn class_before(
    alloc: Global,
    files: &[Vec<u8>],
    last: u32,
    name: &[u8],
    index: usize,
) -> Result<Option<Place>, AllocError> {
    let mut number: u32 = 0;
    for file in files {
        if number > last {
            return Ok(None);
        }
        let found = lexemes(alloc, file)?;
        let around = Candidates::new(alloc, file, &found);
        let end = if number == last { index } else { found.len() };
        for there in 1..end {
            if around.word(there) == name && is_class(around.word_before(there, 1)) {
                return Ok(told(number, file, Some(around.lexeme(there))));
            }
        }
        number = number.saturating_add(1);
    }
    Ok(None)
}

/// Whether a word begins a class.
pub(crate) fn is_class(word: &[u8]) -> bool {
    word.eq_ignore_ascii_case(b"class")
}

/// The nearest lexeme before a position that defines the same name, within the class, the formals or the branches around it.
fn before(around: &Candidates<'_>, sought: Sought, index: usize) -> Option<Lexeme> {
    let name = around.word(index);
    let mut depth: usize = 0;
    for back in 1..index.saturating_add(1) {
        let there = index.saturating_sub(back);
        let next = around.word(there.saturating_add(1));
        match around.word(there) {
            b"}" | b")" | b"esac" => depth = depth.saturating_add(1),
            b"{" | b"(" | b"case" if depth == 0 => return None,
            b"{" | b"(" | b"case" => depth = depth.saturating_sub(1),
            word if depth == 0 && word == name => {
                let is_one = match sought {
                    Sought::Method => next == b"(".as_slice(),
                    Sought::Branch => around.word_before(there, 1) == b":".as_slice(),
                    _ => next == b":".as_slice(),
                };
                if is_one {
                    return Some(around.lexeme(there));
                }
            }
            _ => {}
        }
    }
    None
}

/// The attribute of this name in the class around a position, or else in the nearest class above it.
fn attribute_before(
    alloc: Global,
    files: &[Vec<u8>],
    file: u32,
    around: &Candidates<'_>,
    index: usize,
) -> Result<Option<Place>, AllocError> {
    if let Some(lexeme) = before(around, Sought::Attribute, index) {
        return Ok(told(file, around.bytes, Some(lexeme)));
    }
    let name = around.word(index);
    let mut class = parent_around(around.bytes, around.lexemes, index);
    for _ in 0..MOST_CLASSES_ABOVE {
        if class.is_empty() {
            return Ok(None);
        }
        let (found, parent) = attribute_in(alloc, files, class, name)?;
        if found.is_some() {
            return Ok(found);
        }
        class = parent;
    }
    Ok(None)
}

/// The most classes above one that are looked through.
const MOST_CLASSES_ABOVE: usize = 32;

/// The parent of the class around a position, or nothing.
pub(crate) fn parent_around<'a>(bytes: &'a [u8], lexemes: &[Lexeme], index: usize) -> &'a [u8] {
    for back in 1..index.saturating_add(1) {
        let there = index.saturating_sub(back);
        if is_class(word_at(bytes, lexemes, there)) {
            return parent_at(bytes, lexemes, there);
        }
    }
    b""
}

/// The parent of the class that begins at a position, or nothing.
fn parent_at<'a>(bytes: &'a [u8], lexemes: &[Lexeme], index: usize) -> &'a [u8] {
    let word = word_at(bytes, lexemes, index.saturating_add(2));
    if word.eq_ignore_ascii_case(b"inherits") {
        word_at(bytes, lexemes, index.saturating_add(3))
    } else {
        b""
    }
}

/// The attribute of this name in the class of that name, and the parent of the class.
fn attribute_in<'a>(
    alloc: Global,
    files: &'a [Vec<u8>],
    class: &[u8],
    name: &[u8],
) -> Result<(Option<Place>, &'a [u8]), AllocError> {
    let mut number: u32 = 0;
    for file in files {
        let found = lexemes(alloc, file)?;
        let around = Candidates::new(alloc, file, &found);
        for there in 0..found.len() {
            let is_it = is_class(around.word(there))
                && around.word(there.saturating_add(1)) == class;
            if is_it {
                let attribute = attribute_behind(&around, there, name);
                let parent = parent_at(file.as_slice(), &found, there);
                return Ok((told(number, file, attribute), parent));
            }
        }
        number = number.saturating_add(1);
    }
    Ok((None, b""))
}

/// The attribute of this name in the class that begins at a position.
fn attribute_behind(around: &Candidates<'_>, index: usize, name: &[u8]) -> Option<Lexeme> {
    let mut depth: usize = 0;
    for there in index.saturating_add(1)..around.lexemes.len() {
        let word = around.word(there);
        match word {
            b"{" | b"(" => depth = depth.saturating_add(1),
            b"}" | b")" => depth = depth.saturating_sub(1),
            _ => {}
        }
        if is_class(word) {
            return None;
        }
        let is_it = depth == 1
            && word == name
            && around.word(there.saturating_add(1)) == b":".as_slice();
        if is_it && is_feature(around.word_before(there, 1)) {
            return Some(around.lexeme(there));
        }
    }
    None
}

/// Whether a feature may begin behind a word.
fn is_feature(word: &[u8]) -> bool {
    matches!(word, b"{" | b";")
}
