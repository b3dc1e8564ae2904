//! `names_near` finds the names in the source files that resemble a given word, such as a mistyped name; this module also lists the names of classes.

use crate::definition::is_class;
use crate::kind::{is_keyword, is_name, is_type_name};
use crate::lexeme::part;
use crate::nearness::are_near;
use crate::source::Source;
use cool_classes::{BOOL, ClassId, INT, IO, OBJECT, STRING, Ty};
use std::alloc::{AllocError, Global};

/// The basic classes.
pub(crate) static BASIC_CLASSES: [&str; 5] = ["Int", "String", "Bool", "IO", "Object"];

/// The methods of basic classes.
pub(crate) static BASIC_METHODS: [&str; 10] = [
    "out_string",
    "out_int",
    "in_string",
    "in_int",
    "length",
    "concat",
    "substr",
    "abort",
    "type_name",
    "copy",
];

/// The most names that are tried in the place of one.
pub(crate) const MOST_NAMES: usize = 12;

/// The names of all files, and of the basic classes, that are near to a word and of its kind, each once.
pub(crate) fn names_near(
    alloc: Global,
    sources: &[Source<'_>],
    word: &[u8],
) -> Result<Vec<Vec<u8>>, AllocError> {
    let mut names = Vec::new(alloc);
    add_near_ones(alloc, &mut names, word, &BASIC_CLASSES)?;
    add_near_ones(alloc, &mut names, word, &BASIC_METHODS)?;
    add_near_name(alloc, &mut names, word, b"SELF_TYPE")?;
    add_near_name(alloc, &mut names, word, b"self")?;
    for source in sources {
        for lexeme in source.lexemes.as_slice() {
            add_near_name(
                alloc,
                &mut names,
                word,
                part(source.bytes, lexeme.start, lexeme.end),
            )?;
        }
    }
    Ok(names)
}

/// Adds those of a table that are near to a word and of its kind.
fn add_near_ones(
    alloc: Global,
    names: &mut Vec<Vec<u8>>,
    word: &[u8],
    table: &[&str],
) -> Result<(), AllocError> {
    for name in table {
        add_near_name(alloc, names, word, name.as_bytes())?;
    }
    Ok(())
}

/// Adds a name where it is near to a word and of its kind, and is not there.
fn add_near_name(
    alloc: Global,
    names: &mut Vec<Vec<u8>>,
    word: &[u8],
    name: &[u8],
) -> Result<(), AllocError> {
    if names.len() >= MOST_NAMES || !are_near(word, name) {
        return Ok(());
    }
    let fits = is_type_name(word) == is_type_name(name) && is_name(name) && !is_keyword(name);
    if fits && !is_among(names, name) {
        names.push(Vec::from_slice(alloc, name)?)?;
    }
    Ok(())
}

/// The names of the classes that the files define, in their order, at most so many.
pub(crate) fn class_names(
    alloc: Global,
    sources: &[Source<'_>],
    most: usize,
) -> Result<Vec<Vec<u8>>, AllocError> {
    let mut names = Vec::new(alloc);
    for source in sources {
        let mut is_behind = false;
        for lexeme in source.lexemes.as_slice() {
            let word = part(source.bytes, lexeme.start, lexeme.end);
            if is_behind && names.len() < most {
                names.push(Vec::from_slice(alloc, word)?)?;
            }
            is_behind = is_class(word);
        }
    }
    Ok(names)
}

/// Whether a name is among these.
pub(crate) fn is_among(names: &[Vec<u8>], name: &[u8]) -> bool {
    for known in names {
        if known.as_slice() == name {
            return true;
        }
    }
    false
}

/// The name of a type, of a class by its number in the table of these files.
pub(crate) fn type_name(
    alloc: Global,
    sources: &[Source<'_>],
    found: Ty,
) -> Result<Vec<u8>, AllocError> {
    let Ty::Class(class) = found else {
        return Vec::from_slice(alloc, b"SELF_TYPE");
    };
    let basic: &'static [u8] = match class {
        OBJECT => b"Object",
        IO => b"IO",
        INT => b"Int",
        BOOL => b"Bool",
        STRING => b"String",
        ClassId(number) => {
            let index = (number as usize).saturating_sub(BASIC_CLASSES.len());
            let names = class_names(alloc, sources, index.saturating_add(1))?;
            return match names.get(index) {
                Some(name) => Vec::from_slice(alloc, name),
                None => Ok(Vec::new(alloc)),
            };
        }
    };
    Vec::from_slice(alloc, basic)
}
