//! An excerpt of a program holds the part of a file with a compile-time error, and the declarations that this part may refer to.

use crate::candidate::{Candidate, Splice, spliced};
use crate::kind::is_type_name;
use crate::lexeme::{lexemes, part};
use crate::outline::{ClassOutline, FeatureOutline};
use crate::source::{Ending, Range, Source};
use std::alloc::{AllocError, Global};

/// The most times that the classes are gone through for those that the classes found so far name.
const MOST_ROUNDS: usize = 64;

/// The number of marks of a set of words.
const MARKS: usize = 4096;

/// A program of which one file is changed.
#[derive(Clone, Copy)]
pub struct Program<'a> {
    /// The files as they were.
    pub sources: &'a [Source<'a>],
    /// The number of the file that is changed.
    pub number: usize,
    /// Its bytes as they are now.
    pub here: &'a Source<'a>,
}

impl<'a> Program<'a> {
    /// The file of a number as it is now.
    fn source(&self, number: usize) -> &'a Source<'a> {
        let here: &'a Source<'a> = self.here;
        if number == self.number {
            here
        } else {
            self.sources.get(number).unwrap_or(here)
        }
    }
}

/// An excerpt of a program.
#[derive(Drop)]
pub struct Excerpt {
    pub text: Vec<u8>,
    kept: Vec<Kept>,
}

/// A range of the changed file that stands in an excerpt as it is.
#[derive(Clone, Copy)]
struct Kept {
    /// Its first byte in the file.
    from: usize,
    /// The byte of the file behind it.
    to: usize,
    /// Its first byte in the excerpt.
    at: usize,
}

impl Excerpt {
    /// An excerpt with a range of the changed file, and the declarations that the range or a candidate may name, or all declarations if `is_all`. Returns
    /// `Err` only if memory runs out.
    pub fn around<'a>(
        alloc: Global,
        program: Program<'a>,
        range: Range,
        candidates: &[Candidate],
        is_all: bool,
    ) -> Result<Excerpt, AllocError> {
        let mut maker = Maker {
            alloc,
            program,
            range,
            is_all,
            words: Words::new(alloc)?,
        };
        maker.name(candidates)?;
        maker.follow();
        maker.make()
    }

    /// All files of a program, the changed one first. Returns `Err` only if memory runs out.
    pub fn whole(alloc: Global, program: Program<'_>) -> Result<Excerpt, AllocError> {
        let mut made = Excerpt::new(alloc);
        let bytes = program.here.bytes;
        made.keep(bytes, 0, bytes.len())?;
        for number in 0..program.sources.len() {
            if number != program.number {
                made.text.extend_from_slice(b"\n")?;
                made.text.extend_from_slice(program.source(number).bytes)?;
            }
        }
        Ok(made)
    }

    /// An empty excerpt.
    fn new(alloc: Global) -> Excerpt {
        Excerpt {
            text: Vec::new(alloc),
            kept: Vec::new(alloc),
        }
    }

    /// The excerpt's text with the splices of a candidate; none if one of them changes more than the excerpt shows. Returns `Err` only if memory runs out.
    pub fn with(
        &self,
        alloc: Global,
        candidate: &Candidate,
    ) -> Result<Option<Vec<u8>>, AllocError> {
        let mut moved = Vec::new(alloc);
        for splice in candidate.splices.as_slice() {
            let Some(start) = self.place(splice.start, splice.end) else {
                return Ok(None);
            };
            let length = splice.end.saturating_sub(splice.start);
            moved.push(Splice {
                start,
                end: start.saturating_add(length),
                text: Vec::from_slice(alloc, &splice.text)?,
            })?;
        }
        Ok(Some(spliced(alloc, &self.text, &moved)?))
    }

    /// The byte of the excerpt at which a range of the changed file begins; none if the excerpt does not show the range.
    pub fn place(&self, start: usize, end: usize) -> Option<usize> {
        for kept in self.kept.as_slice() {
            if kept.from <= start && end <= kept.to {
                return Some(kept.at.saturating_add(start.saturating_sub(kept.from)));
            }
        }
        None
    }

    /// The byte of the changed file that stands at a byte of the excerpt, if one does.
    pub fn origin(&self, at: usize) -> Option<usize> {
        for kept in self.kept.as_slice() {
            let place = kept.from.saturating_add(at.saturating_sub(kept.at));
            if kept.at <= at && place <= kept.to {
                return Some(place);
            }
        }
        None
    }

    /// Adds a range of the changed file.
    fn keep(&mut self, bytes: &[u8], from: usize, to: usize) -> Result<(), AllocError> {
        let at = self.text.len();
        self.kept.push(Kept { from, to, at })?;
        self.text.extend_from_slice(part(bytes, from, to))
    }

    /// Adds a range of a source, which is the changed file if `is_here`.
    fn add(
        &mut self,
        source: &Source<'_>,
        start: usize,
        end: usize,
        is_here: bool,
    ) -> Result<(), AllocError> {
        if is_here {
            self.keep(source.bytes, start, end)
        } else {
            self.text.extend_from_slice(part(source.bytes, start, end))
        }
    }

    /// Adds the declaration of a feature: an attribute without its value, and a method with a body that has its type, whichever that is.
    fn add_declaration(
        &mut self,
        source: &Source<'_>,
        feature: &FeatureOutline,
        is_here: bool,
    ) -> Result<(), AllocError> {
        let ty = match source.lexemes.get(feature.ty) {
            Some(lexeme) => *lexeme,
            None => return Ok(()),
        };
        self.text.extend_from_slice(b"\n")?;
        self.add(source, feature.start, ty.end, is_here)?;
        if feature.is_method {
            self.text.extend_from_slice(b" { let x : ")?;
            self.text
                .extend_from_slice(part(source.bytes, ty.start, ty.end))?;
            self.text.extend_from_slice(b" in x }")?;
        }
        self.text.extend_from_slice(b";\n")
    }
}

/// The maker of an excerpt.
#[derive(Drop)]
struct Maker<'a> {
    alloc: Global,
    program: Program<'a>,
    /// The range that stands in the excerpt as it is.
    range: Range,
    /// Whether all classes and features are declared.
    is_all: bool,
    /// The names of those that are declared.
    words: Words,
}

impl<'a> Maker<'a> {
    /// Marks the words of the range and of the candidates, and the name of the class in which the range begins.
    fn name(&mut self, candidates: &[Candidate]) -> Result<(), AllocError> {
        self.words.add(b"Main");
        self.words.add(b"main");
        let here: &'a Source<'a> = self.program.here;
        for lexeme in here.lexemes.as_slice() {
            if self.range.start <= lexeme.start && lexeme.end <= self.range.end {
                self.words.add(part(here.bytes, lexeme.start, lexeme.end));
            }
        }
        for class in here.classes.as_slice() {
            if class.has(self.range.start) {
                self.words.add(here.word(class.name));
            }
        }
        for candidate in candidates {
            for splice in candidate.splices.as_slice() {
                for lexeme in lexemes(self.alloc, &splice.text)?.as_slice() {
                    self.words.add(part(&splice.text, lexeme.start, lexeme.end));
                }
            }
        }
        Ok(())
    }

    /// Marks the types in the declarations of what is marked, and so on.
    fn follow(&mut self) {
        for _ in 0..MOST_ROUNDS {
            let before = self.words.many;
            for number in 0..self.program.sources.len() {
                let source = self.program.source(number);
                for class in source.classes.as_slice() {
                    self.follow_class(source, class);
                }
            }
            if self.words.many == before || self.is_all {
                return;
            }
        }
    }

    /// Marks the parent of a class and the types of its features, if they are wanted.
    fn follow_class(&mut self, source: &Source<'_>, class: &ClassOutline) {
        if !self.wants(source, class.name) {
            return;
        }
        if class.parent > 0 {
            self.words.add(source.word(class.parent));
        }
        for feature in class.features.as_slice() {
            if self.wants(source, feature.name) {
                for index in feature.name..feature.ty.saturating_add(1) {
                    if is_type_name(source.word(index)) {
                        self.words.add(source.word(index));
                    }
                }
            }
        }
    }

    /// Whether the class or feature with its name at a position is wanted.
    fn wants(&self, source: &Source<'_>, index: usize) -> bool {
        self.is_all || self.words.has(source.word(index))
    }

    /// The excerpt.
    fn make(&self) -> Result<Excerpt, AllocError> {
        let mut made = Excerpt::new(self.alloc);
        let here: &'a Source<'a> = self.program.here;
        let mut is_done = false;
        for class in here.classes.as_slice() {
            let is_around = class.start < self.range.end && self.range.start < class.end;
            if is_around && !is_done {
                self.add_range_in(&mut made, class)?;
                is_done = true;
            } else if !is_around {
                self.add_class(&mut made, here, class, true)?;
            }
        }
        if !is_done {
            made.keep(here.bytes, self.range.start, self.range.end)?;
        }
        for number in 0..self.program.sources.len() {
            if number != self.program.number {
                let source = self.program.source(number);
                for class in source.classes.as_slice() {
                    self.add_class(&mut made, source, class, false)?;
                }
            }
        }
        Ok(made)
    }

    /// Adds the range, with the declarations of the class in which it begins.
    fn add_range_in(&self, made: &mut Excerpt, class: &ClassOutline) -> Result<(), AllocError> {
        let range = self.range;
        let here: &'a Source<'a> = self.program.here;
        if range.start > class.start {
            made.keep(here.bytes, class.start, class.head_end)?;
        }
        for feature in class.features.as_slice() {
            if feature.end <= range.start {
                self.add_feature(made, here, feature, true)?;
            }
        }
        made.keep(here.bytes, range.start, range.end)?;
        match range.ending {
            Ending::Features => {
                for feature in here.features_from(self.alloc, range.end)?.as_slice() {
                    self.add_feature(made, here, feature, true)?;
                }
                made.text.extend_from_slice(b"\n};\n")
            }
            Ending::Semicolon => made.text.extend_from_slice(b";\n"),
            Ending::Other => Ok(()),
        }
    }

    /// Adds a class with its declarations, if it is wanted.
    fn add_class(
        &self,
        made: &mut Excerpt,
        source: &Source<'_>,
        class: &ClassOutline,
        is_here: bool,
    ) -> Result<(), AllocError> {
        if !self.wants(source, class.name) {
            return Ok(());
        }
        made.add(source, class.start, class.head_end, is_here)?;
        for feature in class.features.as_slice() {
            self.add_feature(made, source, feature, is_here)?;
        }
        made.text.extend_from_slice(b"};\n")
    }

    /// Adds the declaration of a feature, if it is wanted.
    fn add_feature(
        &self,
        made: &mut Excerpt,
        source: &Source<'_>,
        feature: &FeatureOutline,
        is_here: bool,
    ) -> Result<(), AllocError> {
        if feature.ty > 0 && self.wants(source, feature.name) {
            made.add_declaration(source, feature, is_here)?;
        }
        Ok(())
    }
}

/// A set of words by marks, which several words may share: it may have a word that was not added.
#[derive(Drop)]
struct Words {
    marks: Vec<bool>,
    /// The number of marks that are set.
    many: usize,
}

impl Words {
    /// An empty set. Returns `Err` only if memory runs out.
    fn new(alloc: Global) -> Result<Words, AllocError> {
        let mut marks = Vec::new(alloc);
        for _ in 0..MARKS {
            marks.push(false)?;
        }
        Ok(Words { marks, many: 0 })
    }

    /// Adds a word.
    fn add(&mut self, word: &[u8]) {
        if let Some(mark) = self.marks.get_mut(mark_of(word)) {
            if !*mark {
                *mark = true;
                self.many = self.many.saturating_add(1);
            }
        }
    }

    /// Whether the set has a word.
    fn has(&self, word: &[u8]) -> bool {
        match self.marks.get(mark_of(word)) {
            Some(mark) => *mark,
            None => true,
        }
    }
}

/// The number of a word's mark.
fn mark_of(word: &[u8]) -> usize {
    let mut mark: usize = 0;
    for byte in word {
        mark = mark.saturating_mul(31).saturating_add(*byte as usize) % MARKS;
    }
    mark
}
