//! A `Source` is a source file with its lexemes and its outline (its classes and features); a `Range` is the part of a file in which a compile-time error
//! is.

use crate::kind::{Kind, is_one_of, kind_of};
use crate::lexeme::{Lexeme, index_at, lexemes, word_at};
use crate::outline::{ClassOutline, FeatureOutline, features_from, outline};
use std::alloc::{AllocError, Global};

/// The most lexemes of a method's formals that are looked at.
const MOST_FORMALS: usize = 100;

/// The signs that do not stand in formals.
static OUTSIDE_FORMALS: [&str; 3] = ["(", "{", ";"];

/// A file with its lexemes and its outline.
#[derive(Drop)]
pub struct Source<'a> {
    pub bytes: &'a [u8],
    pub lexemes: Vec<Lexeme>,
    pub(crate) classes: Vec<ClassOutline>,
}

/// A range of a file.
#[derive(Clone, Copy)]
pub struct Range {
    pub start: usize,
    pub end: usize,
    pub(crate) ending: Ending,
}

/// The text that is missing behind a range.
#[derive(Clone, Copy)]
pub(crate) enum Ending {
    /// The rest of the class in which the range begins: its other features, and its brace.
    Features,
    /// The semicolon of a class.
    Semicolon,
    /// Anything else.
    Other,
}

impl<'a> Source<'a> {
    /// The source of these bytes. Returns `Err` only if memory runs out.
    pub fn new(alloc: Global, bytes: &'a [u8]) -> Result<Source<'a>, AllocError> {
        let lexemes = lexemes(alloc, bytes)?;
        let classes = outline(alloc, bytes, &lexemes)?;
        Ok(Source {
            bytes,
            lexemes,
            classes,
        })
    }

    /// The bytes of the lexeme at a position; none if there is no such lexeme.
    pub(crate) fn word(&self, index: usize) -> &'a [u8] {
        word_at(self.bytes, &self.lexemes, index)
    }

    /// The range of the class around a byte; empty if it stands in none.
    pub fn class_around(&self, at: usize) -> Range {
        for class in self.classes.as_slice() {
            if class.has(at) {
                return Range {
                    start: class.start,
                    end: class.end,
                    ending: Ending::Semicolon,
                };
            }
        }
        Range {
            start: at,
            end: at,
            ending: Ending::Other,
        }
    }

    /// The range of the feature around a byte, or of the class if it stands in no feature.
    pub fn feature_around(&self, at: usize) -> Range {
        match self.feature_at(at) {
            Some(feature) => Range {
                start: feature.start,
                end: feature.end,
                ending: Ending::Features,
            },
            None => self.class_around(at),
        }
    }

    /// The feature in which a byte stands.
    fn feature_at(&self, at: usize) -> Option<FeatureOutline> {
        for class in self.classes.as_slice() {
            for feature in class.features.as_slice() {
                if feature.start <= at && at < feature.end {
                    return Some(*feature);
                }
            }
        }
        None
    }

    /// Whether two bytes stand in different features.
    pub fn are_in_different_features(&self, a: usize, b: usize) -> bool {
        match (self.feature_at(a), self.feature_at(b)) {
            (Some(first), Some(second)) => first.start != second.start,
            _ => false,
        }
    }

    /// Whether a byte stands in the body of a feature, on which no other feature depends.
    pub fn is_in_body(&self, at: usize) -> bool {
        let Some(feature) = self.feature_at(at) else {
            return false;
        };
        match self.lexemes.get(feature.ty) {
            Some(ty) => feature.ty > 0 && ty.end < at,
            None => false,
        }
    }

    /// The range in which a fault of syntax at a byte stands. It begins with the last feature but one in front of the fault; if the fault stands in the
    /// head of a class, with the class before. It ends at the second method behind the fault, or at the next class.
    pub fn stretch_around(&self, at: usize) -> Range {
        let mut start = 0;
        let mut end = self.bytes.len();
        for class in self.classes.as_slice() {
            if class.start > at {
                end = class.start;
                break;
            }
            if at >= class.head_end {
                start = start_in(class, at);
            }
        }
        match self.second_method(at, end) {
            Some(end) => Range {
                start,
                end,
                ending: Ending::Features,
            },
            None => Range {
                start,
                end,
                ending: Ending::Other,
            },
        }
    }

    /// The byte at which the second method begins that stands behind a byte and in front of another one.
    fn second_method(&self, at: usize, end: usize) -> Option<usize> {
        let mut is_second = false;
        let first = index_at(&self.lexemes, at).saturating_add(1);
        for index in first..self.lexemes.len() {
            let start = self.lexemes[index].start;
            if start >= end {
                return None;
            }
            if self.begins_method(index) {
                if is_second {
                    return Some(start);
                }
                is_second = true;
            }
        }
        None
    }

    /// Whether a method begins at a position: a name behind a semicolon, with formals and a type.
    fn begins_method(&self, index: usize) -> bool {
        if self.word(index.saturating_sub(1)) != b";".as_slice()
            || kind_of(self.word(index)) != Kind::Object
            || self.word(index.saturating_add(1)) != b"(".as_slice()
        {
            return false;
        }
        for there in index.saturating_add(2)..index.saturating_add(MOST_FORMALS) {
            let word = self.word(there);
            if word == b")".as_slice() {
                return self.word(there.saturating_add(1)) == b":".as_slice();
            }
            if is_one_of(&OUTSIDE_FORMALS, word) {
                return false;
            }
        }
        false
    }

    /// The features of a class from a byte on, which stands in no feature. Returns `Err` only if memory runs out.
    pub(crate) fn features_from(
        &self,
        alloc: Global,
        at: usize,
    ) -> Result<Vec<FeatureOutline>, AllocError> {
        let first = index_at(&self.lexemes, at);
        features_from(alloc, self.bytes, &self.lexemes, first)
    }
}

/// The byte at which the last feature but one in front of a byte begins, or else the class.
fn start_in(class: &ClassOutline, at: usize) -> usize {
    let mut start = class.start;
    let mut last = class.start;
    for feature in class.features.as_slice() {
        if feature.end < at {
            start = last;
            last = feature.start;
        }
    }
    start
}
