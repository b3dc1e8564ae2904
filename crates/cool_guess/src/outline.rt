//! The outline of a text is the list of its classes and their features. It is read from the lexemes without a parser, so that a text with errors has one
//! too.

use crate::candidate::Candidates;
use crate::definition::is_class;
use crate::kind::{Kind, is_one_of, kind_of};
use crate::lexeme::Lexeme;
use std::alloc::{AllocError, Global};

/// The signs that open a stretch in which no feature begins.
static OPENING: [&str; 2] = ["{", "("];

/// The signs that close such a stretch.
static CLOSING: [&str; 2] = ["}", ")"];

/// A feature of a class.
#[derive(Clone, Copy)]
pub(crate) struct FeatureOutline {
    /// The byte at which its name begins.
    pub(crate) start: usize,
    /// The byte behind its semicolon.
    pub(crate) end: usize,
    /// The position of its name.
    pub(crate) name: usize,
    /// The position of its type; 0 if it has none.
    pub(crate) ty: usize,
    pub(crate) is_method: bool,
}

/// A class of a text.
#[derive(Drop)]
pub(crate) struct ClassOutline {
    /// The byte at which its `class` begins.
    pub(crate) start: usize,
    /// The byte behind its last brace, or the one at which the next class begins.
    pub(crate) end: usize,
    /// The byte behind its first brace; 0 if it has none.
    pub(crate) head_end: usize,
    /// The position of its name.
    pub(crate) name: usize,
    /// The position of its parent's name; 0 if it names none.
    pub(crate) parent: usize,
    pub(crate) features: Vec<FeatureOutline>,
}

impl ClassOutline {
    /// A class that begins at a byte, with its name at a position, of which no more is read.
    fn new(alloc: Global, start: usize, name: usize) -> ClassOutline {
        ClassOutline {
            start,
            end: 0,
            head_end: 0,
            name,
            parent: 0,
            features: Vec::new(alloc),
        }
    }

    /// Whether a byte stands in the class.
    pub(crate) fn has(&self, at: usize) -> bool {
        self.start <= at && at < self.end
    }
}

/// The classes of a text with these lexemes. Returns `Err` only if memory runs out.
pub(crate) fn outline(
    alloc: Global,
    bytes: &[u8],
    lexemes: &[Lexeme],
) -> Result<Vec<ClassOutline>, AllocError> {
    let around = Candidates::new(alloc, bytes, lexemes);
    let mut reader = Reader::new(alloc, None);
    for index in 0..lexemes.len() {
        reader.read(&around, index)?;
    }
    reader.close_class(bytes.len())?;
    let Reader { all, .. } = reader;
    Ok(all)
}

/// The features of a class from a position on, which stands in no feature, up to the end of the class. Returns `Err` only if memory runs out.
pub(crate) fn features_from(
    alloc: Global,
    bytes: &[u8],
    lexemes: &[Lexeme],
    first: usize,
) -> Result<Vec<FeatureOutline>, AllocError> {
    let around = Candidates::new(alloc, bytes, lexemes);
    let mut class = ClassOutline::new(alloc, 0, 0);
    // Its first brace is passed.
    class.head_end = 1;
    let mut reader = Reader::new(alloc, Some(class));
    for index in first..lexemes.len() {
        if reader.class.is_none() {
            break;
        }
        reader.read(&around, index)?;
    }
    reader.close_class(bytes.len())?;
    match reader.all.first() {
        Some(class) => Vec::from_slice(alloc, class.features.as_slice()),
        None => Ok(Vec::new(alloc)),
    }
}

/// The part of a text that was read.
#[derive(Drop)]
struct Reader {
    /// The classes that are closed.
    all: Vec<ClassOutline>,
    /// The class that is open.
    class: Option<ClassOutline>,
    /// The feature that is open.
    feature: Option<FeatureOutline>,
    /// The number of braces, parentheses and `case` that are open in the class.
    depth: usize,
}

impl Reader {
    /// A reader in this class, or outside of all classes.
    fn new(alloc: Global, class: Option<ClassOutline>) -> Reader {
        Reader {
            all: Vec::new(alloc),
            class,
            feature: None,
            depth: 0,
        }
    }

    /// Reads the lexeme at a position.
    fn read(&mut self, around: &Candidates<'_>, index: usize) -> Result<(), AllocError> {
        let word = around.word(index);
        let here = around.lexeme(index);
        if is_class(word) {
            self.close_class(here.start)?;
            let name = index.saturating_add(1);
            self.class = Some(ClassOutline::new(around.alloc, here.start, name));
            return Ok(());
        }
        let Some(class) = &mut self.class else {
            return Ok(());
        };
        if class.head_end == 0 {
            if word == b"{".as_slice() {
                class.head_end = here.end;
            } else if word.eq_ignore_ascii_case(b"inherits") {
                class.parent = index.saturating_add(1);
            }
            return Ok(());
        }
        if self.depth == 0 && word == b"}".as_slice() {
            return self.close_class(here.end);
        }
        if self.depth == 0 {
            self.read_feature(around, index)?;
        }
        if is_one_of(&OPENING, word) || word.eq_ignore_ascii_case(b"case") {
            self.depth = self.depth.saturating_add(1);
        } else if is_one_of(&CLOSING, word) || word.eq_ignore_ascii_case(b"esac") {
            self.depth = self.depth.saturating_sub(1);
        }
        Ok(())
    }

    /// Reads the lexeme at a position at which nothing is open in the class, except a feature.
    fn read_feature(&mut self, around: &Candidates<'_>, index: usize) -> Result<(), AllocError> {
        let word = around.word(index);
        let here = around.lexeme(index);
        let next = index.saturating_add(1);
        match &mut self.feature {
            Some(feature) => {
                if word == b":".as_slice() && feature.ty == 0 {
                    feature.ty = next;
                }
                if word == b";".as_slice() {
                    feature.end = here.end;
                    let done = *feature;
                    self.feature = None;
                    if let Some(class) = &mut self.class {
                        class.features.push(done)?;
                    }
                }
            }
            None if kind_of(word) == Kind::Object => {
                self.feature = Some(FeatureOutline {
                    start: here.start,
                    end: 0,
                    name: index,
                    ty: 0,
                    is_method: around.word(next) == b"(".as_slice(),
                });
            }
            None => {}
        }
        Ok(())
    }

    /// Ends the class that is open, if one is, at a byte.
    fn close_class(&mut self, end: usize) -> Result<(), AllocError> {
        self.depth = 0;
        self.feature = None;
        if let Some(mut class) = self.class.take() {
            class.end = end;
            if class.head_end > 0 {
                self.all.push(class)?;
            }
        }
        Ok(())
    }
}
