//! A `Candidate` is an edit of a source text that may fix a compile-time error, with the reason for the edit.

use crate::hint::Hint;
use crate::lexeme::{Lexeme, is_name_byte, part};
use std::alloc::{AllocError, Global};

/// The reason for an edit.
#[derive(Clone, Copy)]
pub enum Reason {
    /// None but the edit itself.
    Edit,
    /// A mistake that has a hint.
    Hinted(Hint),
}

/// Bytes in the place of those from `start` up to `end`.
#[derive(Drop)]
pub struct Splice {
    pub start: usize,
    pub end: usize,
    pub text: Vec<u8>,
}

/// Splices that go together, in the order in which they stand.
#[derive(Drop)]
pub struct Candidate {
    pub reason: Reason,
    /// Whether all that is said for it is that the files are a program then.
    pub is_guess: bool,
    pub splices: Vec<Splice>,
}

/// The text with the splices. Returns `Err` only if memory runs out.
pub fn spliced(alloc: Global, bytes: &[u8], splices: &[Splice]) -> Result<Vec<u8>, AllocError> {
    let mut new = Vec::new(alloc);
    let mut taken = 0;
    for splice in splices {
        new.extend_from_slice(part(bytes, taken, splice.start))?;
        new.extend_from_slice(&splice.text)?;
        taken = splice.end;
    }
    new.extend_from_slice(part(bytes, taken, bytes.len()))?;
    Ok(new)
}

/// Candidates for a text, the likeliest first.
#[derive(Drop)]
pub(crate) struct Candidates<'a> {
    pub(crate) alloc: Global,
    pub(crate) bytes: &'a [u8],
    pub(crate) lexemes: &'a [Lexeme],
    pub(crate) all: Vec<Candidate>,
    /// Whether what is added is a guess.
    pub(crate) is_guess: bool,
}

impl<'a> Candidates<'a> {
    /// None yet.
    pub(crate) fn new(alloc: Global, bytes: &'a [u8], lexemes: &'a [Lexeme]) -> Candidates<'a> {
        Candidates {
            alloc,
            bytes,
            lexemes,
            all: Vec::new(alloc),
            is_guess: false,
        }
    }

    /// The lexeme at a position, or an empty one at the end.
    pub(crate) fn lexeme(&self, index: usize) -> Lexeme {
        let end = self.bytes.len();
        match self.lexemes.get(index) {
            Some(lexeme) => *lexeme,
            None => Lexeme { start: end, end },
        }
    }

    /// The lexeme so many before a position, or an empty one at the beginning.
    pub(crate) fn before(&self, index: usize, many: usize) -> Lexeme {
        match index.checked_sub(many) {
            Some(there) => self.lexeme(there),
            None => Lexeme { start: 0, end: 0 },
        }
    }

    /// The bytes of a lexeme.
    pub(crate) fn text(&self, lexeme: Lexeme) -> &'a [u8] {
        part(self.bytes, lexeme.start, lexeme.end)
    }

    /// The bytes of the lexeme at a position.
    pub(crate) fn word(&self, index: usize) -> &'a [u8] {
        self.text(self.lexeme(index))
    }

    /// The bytes of the lexeme so many before a position.
    pub(crate) fn word_before(&self, index: usize, many: usize) -> &'a [u8] {
        self.text(self.before(index, many))
    }

    /// Adds one with these bytes in the place of a range.
    pub(crate) fn put(
        &mut self,
        reason: Reason,
        start: usize,
        end: usize,
        text: &[u8],
    ) -> Result<(), AllocError> {
        let splices = vec![in self.alloc; self.splice(start, end, text)?]?;
        self.add(reason, splices)
    }

    /// Adds one with these bytes in the place of a lexeme, and blanks where a word would go on. Where there are none the blank behind it goes too.
    pub(crate) fn put_at(
        &mut self,
        reason: Reason,
        place: Lexeme,
        text: &[u8],
    ) -> Result<(), AllocError> {
        let in_front = part(self.bytes, place.start.saturating_sub(1), place.start);
        let behind = part(self.bytes, place.end, place.end.saturating_add(1));
        if text.is_empty() && is_blank(in_front) && behind == b" ".as_slice() {
            return self.put(reason, place.start, place.end.saturating_add(1), text);
        }
        let mut apart = Vec::new(self.alloc);
        if ends_word(in_front) && begins_word(text) {
            apart.push(b' ')?;
        }
        apart.extend_from_slice(text)?;
        if ends_word(text) && begins_word(behind) {
            apart.push(b' ')?;
        }
        self.put(reason, place.start, place.end, &apart)
    }

    /// Adds one with each of these texts in the place of a range.
    pub(crate) fn put_each(
        &mut self,
        reason: Reason,
        place: Lexeme,
        texts: &[&str],
    ) -> Result<(), AllocError> {
        for text in texts {
            self.put_at(reason, place, text.as_bytes())?;
        }
        Ok(())
    }

    /// Adds one with what a table has for the word of a lexeme.
    pub(crate) fn put_ours(
        &mut self,
        place: Lexeme,
        table: &[(&str, &str)],
    ) -> Result<(), AllocError> {
        for (other, ours) in table {
            if other.as_bytes() == self.text(place) {
                self.put_at(Reason::Edit, place, ours.as_bytes())?;
            }
        }
        Ok(())
    }

    /// Adds one with two such places.
    pub(crate) fn put_two(
        &mut self,
        reason: Reason,
        first: Splice,
        second: Splice,
    ) -> Result<(), AllocError> {
        let splices = vec![in self.alloc; first, second]?;
        self.add(reason, splices)
    }

    /// Adds one with three such places.
    pub(crate) fn put_three(
        &mut self,
        reason: Reason,
        first: Splice,
        second: Splice,
        third: Splice,
    ) -> Result<(), AllocError> {
        let splices = vec![in self.alloc; first, second, third]?;
        self.add(reason, splices)
    }

    /// Adds one with these places.
    pub(crate) fn add(&mut self, reason: Reason, splices: Vec<Splice>) -> Result<(), AllocError> {
        let candidate = Candidate {
            reason,
            is_guess: self.is_guess,
            splices,
        };
        if !self.is_silly(&candidate) {
            self.all.push(candidate)?;
        }
        Ok(())
    }

    /// Bytes in the place of a range.
    pub(crate) fn splice(
        &self,
        start: usize,
        end: usize,
        text: &[u8],
    ) -> Result<Splice, AllocError> {
        Ok(Splice {
            start,
            end,
            text: Vec::from_slice(self.alloc, text)?,
        })
    }

    /// These bytes, one after the other.
    pub(crate) fn joined(&self, parts: &[&[u8]]) -> Result<Vec<u8>, AllocError> {
        let mut text = Vec::new(self.alloc);
        for bytes in parts {
            text.extend_from_slice(bytes)?;
        }
        Ok(text)
    }
}

/// Whether some bytes end as a name does.
pub(crate) fn ends_word(bytes: &[u8]) -> bool {
    match bytes {
        [.., last] => is_name_byte(*last),
        _ => false,
    }
}

/// Whether some bytes begin as a name does.
pub(crate) fn begins_word(bytes: &[u8]) -> bool {
    match bytes {
        [first, ..] => is_name_byte(*first),
        _ => false,
    }
}

/// Whether some bytes are blank, or none.
pub(crate) fn is_blank(bytes: &[u8]) -> bool {
    bytes.trim_ascii().is_empty()
}
