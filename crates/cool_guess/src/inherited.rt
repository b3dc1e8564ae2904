//! `redefinition` and `class_below` give sentences about methods that other classes of a file have: the method that one redefines, and the method that
//! only a class below has.

use crate::candidate::Candidates;
use crate::kind::{Kind, is_one_of, kind_of};
use crate::names::BASIC_METHODS;
use crate::outline::{ClassOutline, FeatureOutline, outline};
use std::alloc::{AllocError, Global};

/// The signs in front of a feature.
static BEFORE_FEATURES: [&str; 2] = ["{", ";"];

/// The methods of Object.
static OF_OBJECT: [(&str, &str); 3] = [
    ("abort", "abort() : Object"),
    ("type_name", "type_name() : String"),
    ("copy", "copy() : SELF_TYPE"),
];

/// The methods of IO.
static OF_IO: [(&str, &str); 4] = [
    ("out_string", "out_string(x : String) : SELF_TYPE"),
    ("out_int", "out_int(x : Int) : SELF_TYPE"),
    ("in_string", "in_string() : String"),
    ("in_int", "in_int() : Int"),
];

/// The most classes above one that are looked through.
const MOST_CLASSES_ABOVE: usize = 32;

/// The most lexemes of a signature that are told.
const MOST_OF_SIGNATURE: usize = 100;

/// The classes of a text.
#[derive(Clone, Copy)]
struct Classes<'a> {
    around: &'a Candidates<'a>,
    all: &'a [ClassOutline],
}

/// A sentence on the method that the one at a position redefines, if that has another signature. Returns `Err` only if memory runs out.
pub(crate) fn redefinition(
    alloc: Global,
    around: &Candidates<'_>,
    index: usize,
) -> Result<Option<Vec<u8>>, AllocError> {
    if !around.is_call(index) || !is_one_of(&BEFORE_FEATURES, around.word_before(index, 1)) {
        return Ok(None);
    }
    let all = outline(alloc, around.bytes, around.lexemes)?;
    let classes = Classes {
        around,
        all: all.as_slice(),
    };
    let at = around.lexeme(index).start;
    for class in classes.all {
        if class.has(at) {
            for method in class.features.as_slice() {
                if method.name == index {
                    return classes.redefined(alloc, class, method);
                }
            }
        }
    }
    Ok(None)
}

/// A sentence on the class that has the method which is called at a position, if the class of the receiver has none of that name, and a class below it has
/// one. Returns `Err` only if memory runs out.
pub(crate) fn class_below(
    alloc: Global,
    around: &Candidates<'_>,
    index: usize,
) -> Result<Option<Vec<u8>>, AllocError> {
    let receiver = around.word_before(index, 2);
    let is_name = around.word_before(index, 1) == b".".as_slice()
        && kind_of(receiver) == Kind::Object
        && receiver != b"self".as_slice()
        && around.word_before(index, 3) != b".".as_slice();
    let method = around.word(index);
    if !is_name || !around.is_call(index) || is_one_of(&BASIC_METHODS, method) {
        return Ok(None);
    }
    let Some(declared) = around.type_of_name(receiver, index) else {
        return Ok(None);
    };
    let class = around.text(declared);
    let all = outline(alloc, around.bytes, around.lexemes)?;
    let classes = Classes {
        around,
        all: all.as_slice(),
    };
    if classes.knows(class, method) {
        return Ok(None);
    }
    for below in classes.all {
        if classes.method(below, method).is_some() && classes.is_below(below, class) {
            let name = around.word(below.name);
            return Ok(Some(below_words(around, name, class, method)?));
        }
    }
    Ok(None)
}

/// The sentence on a class that has a method, and inherits from another one.
fn below_words(
    around: &Candidates<'_>,
    name: &[u8],
    class: &[u8],
    method: &[u8],
) -> Result<Vec<u8>, AllocError> {
    around.joined(&[
        b"class ",
        name,
        b", which inherits from ",
        class,
        b", has `",
        method,
        b"`: declare the variable as ",
        name,
        b", or use `case`",
    ])
}

impl<'a> Classes<'a> {
    /// The class of this name.
    fn named(&self, name: &[u8]) -> Option<&'a ClassOutline> {
        for class in self.all {
            if self.around.word(class.name) == name {
                return Some(class);
            }
        }
        None
    }

    /// The name of the parent of a class.
    fn parent(&self, class: &ClassOutline) -> &'a [u8] {
        if class.parent == 0 {
            b"Object"
        } else {
            self.around.word(class.parent)
        }
    }

    /// The method of this name that a class defines.
    fn method(&self, class: &ClassOutline, name: &[u8]) -> Option<FeatureOutline> {
        for feature in class.features.as_slice() {
            if feature.is_method && self.around.word(feature.name) == name {
                return Some(*feature);
            }
        }
        None
    }

    /// Whether the class of this name has the method, itself or from a class above, or has a class above that the text does not show.
    fn knows(&self, name: &[u8], method: &[u8]) -> bool {
        let mut above = name;
        for _ in 0..MOST_CLASSES_ABOVE {
            let Some(class) = self.named(above) else {
                return !matches!(above, b"Object" | b"IO");
            };
            if self.method(class, method).is_some() {
                return true;
            }
            above = self.parent(class);
        }
        true
    }

    /// Whether a class inherits from the one of this name.
    fn is_below(&self, below: &ClassOutline, name: &[u8]) -> bool {
        let mut above = self.parent(below);
        for _ in 0..MOST_CLASSES_ABOVE {
            if above == name {
                return true;
            }
            let Some(class) = self.named(above) else {
                return false;
            };
            above = self.parent(class);
        }
        false
    }

    /// A sentence on the nearest method above a class that this one of the class redefines, if their types differ.
    fn redefined(
        &self,
        alloc: Global,
        class: &ClassOutline,
        method: &FeatureOutline,
    ) -> Result<Option<Vec<u8>>, AllocError> {
        let name = self.around.word(method.name);
        let own = self.signature(method)?;
        let mut above = self.parent(class);
        for _ in 0..MOST_CLASSES_ABOVE {
            let Some(there) = self.named(above) else {
                return self.redefined_basic(class, above, name, &own);
            };
            if let Some(other) = self.method(there, name) {
                if self.have_same_types(method, &other) {
                    return Ok(None);
                }
                let line = self.line(other.start);
                let digits = format!(in alloc; "{line}")?.into_bytes();
                let place = self.around.joined(&[b" (line ", &digits, b")"])?;
                let theirs = self.signature(&other)?;
                return Ok(Some(self.both(above, &place, &theirs, class, &own)?));
            }
            above = self.parent(there);
        }
        Ok(None)
    }

    /// The same where the class of a name is basic.
    fn redefined_basic(
        &self,
        class: &ClassOutline,
        above: &[u8],
        name: &[u8],
        own: &[u8],
    ) -> Result<Option<Vec<u8>>, AllocError> {
        if above == b"IO".as_slice() {
            if let Some(theirs) = basic(&OF_IO, name) {
                return Ok(Some(self.both(b"IO", b"", theirs, class, own)?));
            }
        }
        if !matches!(above, b"IO" | b"Object") {
            return Ok(None);
        }
        match basic(&OF_OBJECT, name) {
            Some(theirs) => Ok(Some(self.both(b"Object", b"", theirs, class, own)?)),
            None => Ok(None),
        }
    }

    /// The sentence on both signatures.
    fn both(
        &self,
        above: &[u8],
        place: &[u8],
        theirs: &[u8],
        class: &ClassOutline,
        own: &[u8],
    ) -> Result<Vec<u8>, AllocError> {
        self.around.joined(&[
            b"class ",
            above,
            place,
            b" declares `",
            theirs,
            b"`, class ",
            self.around.word(class.name),
            b" `",
            own,
            b"`: a redefinition has the same types of formals and the same result type",
        ])
    }

    /// The signature of a method, as `f(x : T) : U`.
    fn signature(&self, method: &FeatureOutline) -> Result<Vec<u8>, AllocError> {
        let mut text = Vec::new(self.around.alloc);
        let end = method.ty.min(method.name.saturating_add(MOST_OF_SIGNATURE));
        for index in method.name..end.saturating_add(1) {
            match self.around.word(index) {
                b":" => text.extend_from_slice(b" : ")?,
                b"," => text.extend_from_slice(b", ")?,
                word => text.extend_from_slice(word)?,
            }
        }
        Ok(text)
    }

    /// Whether two methods declare the same types.
    fn have_same_types(&self, one: &FeatureOutline, other: &FeatureOutline) -> bool {
        let mut there = other.name;
        for index in one.name..one.ty.saturating_add(1) {
            if self.around.word_before(index, 1) == b":".as_slice() {
                there = self.next_type(there, other.ty);
                if self.around.word(there) != self.around.word(index) {
                    return false;
                }
            }
        }
        there == other.ty
    }

    /// The position of the first type behind a position, or behind the last one.
    fn next_type(&self, index: usize, last: usize) -> usize {
        for there in index.saturating_add(1)..last.saturating_add(1) {
            if self.around.word_before(there, 1) == b":".as_slice() {
                return there;
            }
        }
        last.saturating_add(1)
    }

    /// The number of the line of a byte.
    fn line(&self, at: usize) -> usize {
        let mut line: usize = 1;
        for index in 0..at.min(self.around.bytes.len()) {
            if self.around.bytes[index] == b'\n' {
                line = line.saturating_add(1);
            }
        }
        line
    }
}

/// The signature that a table has for a method.
fn basic(table: &[(&str, &'static str)], name: &[u8]) -> Option<&'static [u8]> {
    for (known, signature) in table {
        if known.as_bytes() == name {
            return Some(signature.as_bytes());
        }
    }
    None
}
