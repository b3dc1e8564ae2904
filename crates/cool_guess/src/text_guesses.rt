//! Candidate fixes for lexical and syntax errors are guessed from the lexemes around the error.

use crate::candidate::{Candidate, Candidates, Reason, ends_word, is_blank};
use crate::extents::{begins_expression, closes, opens};
use crate::fitting::{fitting, is_known};
use crate::forms::wants_type;
use crate::hint::Hint;
use crate::kind::{KEYWORDS, Kind, is_constant, is_one_of, kind_of};
use crate::lexeme::{Lexeme, index_at, line_length, part};
use crate::nearness::are_near;
use crate::signs::{PAIRS, TYPES, WORDS};
use crate::silly::is_unknown;
use std::alloc::{AllocError, Global};

/// Braces, and words that have an expression behind them.
static OPENED: [&str; 5] = ["{", "then", "else", "loop", "in"];

/// The words that close a brace or the expression behind a word.
static CLOSED: [&str; 5] = ["}", "fi", "pool", "else", ")"];

/// The words that are tried in front of a fault and in its place, the likeliest first.
static PIECES: [&str; 18] = [
    ";", "fi", "in", ")", "}", "pool", "esac", "then", "loop", "of", "else", "(", ":", "<-", "=>",
    ",", ".", "{",
];

/// The words that are tried after these: such an edit is told only if it makes the files a program.
static GUESSES: [&str; 8] = [
    "@", "let", "if", "while", "case", "new", "inherits", "class",
];

/// Several at once.
static PHRASES: [&str; 10] = [
    " : Int",
    " : String",
    " : Bool",
    " : Object",
    " : SELF_TYPE",
    " else 0 fi",
    " else 0",
    "()",
    " fi fi",
    "; }",
];

/// The signs in front of an argument.
static BEFORE_ARGUMENTS: [&str; 2] = ["(", ","];

/// Words and signs that end an operand or what a word began.
static CLOSERS: [&str; 2] = [")", "}"];

/// Words that begin an expression or a definition, or stand in front of one.
static OPENERS: [&str; 11] = [
    "if", "while", "case", "let", "(", "{", "new", "not", "class", "isvoid", "~",
];

/// The number of lexemes in front of the fault that are looked at.
const LOOKED_BACK: usize = 4;

/// The number of lexemes in front of the fault among which a word may be missing.
const LOOKED_FAR: usize = 40;

/// The signs that may be missing in the middle of a word that is two.
static PARTING: [&str; 4] = [" ", "(", ".", ", "];

/// The longest words that are parted.
const MOST_LETTERS: usize = 40;

/// The most lines of a comment at whose end its end is looked for.
const MOST_COMMENT_LINES: usize = 24;

/// The most braces, words and signs of a line that a string may have swallowed.
const MOST_SWALLOWED: usize = 6;

/// The candidates for the fault at a position of a text, the likeliest first. Returns `Err` only if memory runs out.
pub fn text_candidates(
    alloc: Global,
    bytes: &[u8],
    lexemes: &[Lexeme],
    index: usize,
) -> Result<Vec<Candidate>, AllocError> {
    let mut found = Candidates::new(alloc, bytes, lexemes);
    if found.foreign_hint(index).is_some() {
        return Ok(Vec::new(alloc));
    }
    found.add_marks(index)?;
    found.add_words(index)?;
    found.add_statements(index)?;
    found.add_forms(index)?;
    if found.is_hopeless(index) {
        let Candidates { all, .. } = found;
        return Ok(all);
    }
    found.add_commented(index)?;
    found.add_closed(index)?;
    found.add_names(index)?;
    found.add_keywords(index)?;
    found.add_doubled(index, 0, LOOKED_BACK)?;
    found.add_exchanged(index)?;
    found.add_missing(index, 0)?;
    found.add_braces(index)?;
    found.add_extra(index, 0)?;
    for back in 1..LOOKED_BACK {
        found.add_missing(index, back)?;
    }
    found.add_farther(index)?;
    let Candidates { all, .. } = found;
    Ok(all)
}

impl<'a> Candidates<'a> {
    /// Adds those that are less likely: at places farther from the fault, and by words that stand elsewhere.
    fn add_farther(&mut self, index: usize) -> Result<(), AllocError> {
        self.add_doubled(index, LOOKED_BACK, LOOKED_FAR)?;
        self.add_openers(index)?;
        for back in 0..LOOKED_BACK {
            self.add_others(index, back)?;
        }
        for back in 0..LOOKED_BACK {
            self.add_parted(index, back)?;
        }
        self.add_phrases(index)?;
        for back in 1..LOOKED_BACK {
            self.add_extra(index, back)?;
        }
        Ok(())
    }

    /// Signs and words of other languages.
    fn add_words(&mut self, index: usize) -> Result<(), AllocError> {
        if self.begins_import(index) {
            return Ok(());
        }
        self.put_pairs(index, &PAIRS)?;
        self.put_pairs(index.saturating_add(1), &PAIRS)?;
        self.put_words(self.lexeme(index), &WORDS)?;
        self.put_words(self.before(index, 1), &WORDS)
    }

    /// The text that a table has for the lexeme at a position and the one before it.
    fn put_pairs(
        &mut self,
        index: usize,
        table: &[(&str, &str, &str, Hint)],
    ) -> Result<(), AllocError> {
        let first = self.before(index, 1);
        let second = self.lexeme(index);
        for (one, other, text, hint) in table {
            if one.as_bytes() == self.text(first) && other.as_bytes() == self.text(second) {
                self.put_pair(Reason::Hinted(*hint), first, second, text.as_bytes())?;
            }
        }
        Ok(())
    }

    /// A text in the place of two lexemes: where it is the second, the first is taken out.
    fn put_pair(
        &mut self,
        said: Reason,
        first: Lexeme,
        second: Lexeme,
        text: &[u8],
    ) -> Result<(), AllocError> {
        if text == self.text(second) {
            self.put(said, first.start, first.end, b"")
        } else {
            self.put(said, first.start, second.end, text)
        }
    }

    /// The text that a table has for a lexeme.
    fn put_words(&mut self, place: Lexeme, table: &[(&str, &str, Hint)]) -> Result<(), AllocError> {
        for (word, text, hint) in table {
            if word.as_bytes() == self.text(place) && !self.is_lost(place, *hint) {
                self.put_at(Reason::Hinted(*hint), place, text.as_bytes())?;
            }
        }
        Ok(())
    }

    /// Whether a hint on a lexeme makes a comparison whose result nothing uses: of `5 <- x`, or of `const x = 5` without its first word; or an
    /// assignment as an argument.
    fn is_lost(&self, place: Lexeme, hint: Hint) -> bool {
        let index = index_at(self.lexemes, place.start);
        match hint {
            Hint::EqualsCompares => self.is_value_assigned(index),
            Hint::NoModifiers => self.is_untyped(index),
            Hint::ArrowOfBranches => self.is_argument(index),
            _ => false,
        }
    }

    /// Whether a name in front of the sign at a position is the begin of an argument.
    pub(crate) fn is_argument(&self, index: usize) -> bool {
        kind_of(self.word_before(index, 1)) == Kind::Object
            && is_one_of(&BEFORE_ARGUMENTS, self.word_before(index, 2))
    }

    /// Comments that are not closed, and comments of other languages over several lines.
    fn add_commented(&mut self, index: usize) -> Result<(), AllocError> {
        let here = self.lexeme(index);
        let last = self.before(index, 1);
        match (self.text(last), self.text(here)) {
            (b"/", b"*") => self.add_comment(index),
            (_, b"/") if self.word(index.saturating_add(1)) == b"*".as_slice() => {
                self.add_comment(index.saturating_add(1))
            }
            (_, b"(") if self.word(index.saturating_add(1)) == b"*".as_slice() => {
                self.add_comment_end(here.start)
            }
            (_, b"*") if self.word(index.saturating_add(1)) == b")".as_slice() => {
                let said = Reason::Hinted(Hint::CommentNotOpen);
                self.put(said, here.start, here.end.saturating_add(1), b"")
            }
            _ => Ok(()),
        }
    }

    /// The end of a comment that begins at a byte: at the end of its line, or of one of the next lines up to a class; if no class is behind it, at the
    /// end of the file.
    fn add_comment_end(&mut self, start: usize) -> Result<(), AllocError> {
        let said = Reason::Hinted(Hint::CommentNotClosed);
        let mut stop = start;
        for _ in 0..MOST_COMMENT_LINES {
            let line = part(self.bytes, stop, self.bytes.len());
            let end = stop.saturating_add(line_length(line));
            self.put(said, end, end, b" *)")?;
            stop = end.saturating_add(1);
            match part(self.bytes, stop, self.bytes.len()) {
                [
                    b'c' | b'C',
                    b'l' | b'L',
                    b'a' | b'A',
                    b's' | b'S',
                    b's' | b'S',
                    b' ',
                    ..
                ] => {
                    return Ok(());
                }
                [] => return Ok(()),
                _ => {}
            }
        }
        Ok(())
    }

    /// `/* .. */` as `(* .. *)`.
    fn add_comment(&mut self, index: usize) -> Result<(), AllocError> {
        for later in index.saturating_add(1)..self.lexemes.len() {
            let end = self.lexeme(later.saturating_add(1));
            if self.word(later) == b"*".as_slice() && self.text(end) == b"/".as_slice() {
                let first = self.splice(
                    self.before(index, 1).start,
                    self.lexeme(index).end,
                    b"(*",
                )?;
                let second = self.splice(self.lexeme(later).start, end.end, b"*)")?;
                let said = Reason::Hinted(Hint::BlockComment);
                return self.put_two(said, first, second);
            }
        }
        Ok(())
    }

    /// A string that is closed at the end of its line, or in front of the signs that end it.
    fn add_closed(&mut self, index: usize) -> Result<(), AllocError> {
        let here = self.lexeme(index);
        if !matches!(self.text(here), [b'"', ..]) {
            return Ok(());
        }
        let said = Reason::Hinted(Hint::StringNotClosed);
        let mut place = here.end;
        for _ in 0..MOST_SWALLOWED {
            self.put(said, place, place, b"\"")?;
            let before = place.saturating_sub(1);
            let is_sign = matches!(
                part(self.bytes, before, place),
                b")" | b";" | b" " | b"}" | b"," | b"\r"
            );
            if !is_sign || before <= here.start {
                break;
            }
            place = before;
        }
        self.put(said, here.end, here.end, b"\")")?;
        let said = Reason::Hinted(Hint::StringOnNextLine);
        self.put(said, here.end, here.end, b"\\")
    }

    /// Types that begin with a small letter, and other names that begin with a capital one.
    fn add_names(&mut self, index: usize) -> Result<(), AllocError> {
        let here = self.lexeme(index);
        let word = self.text(here);
        self.put_ours(here, &TYPES)?;
        let mut text = Vec::from_slice(self.alloc, word)?;
        let said = match (kind_of(word), text.first_mut()) {
            (Kind::Object, Some(first)) if !self.is_call(index) => {
                *first = first.to_ascii_uppercase();
                Reason::Hinted(Hint::CapitalLetter)
            }
            (Kind::Type, Some(first)) => {
                *first = first.to_ascii_lowercase();
                Reason::Hinted(Hint::SmallLetter)
            }
            _ => return Ok(()),
        };
        let next = self.word(index.saturating_add(1));
        let is_defined = next == b":".as_slice()
            || kind_of(word) == Kind::Object
            || (next == b"(".as_slice() && !self.is_used_as_type(word));
        if is_defined || self.has_word(&text) {
            self.put_at(said, here, &text)?;
        }
        Ok(())
    }

    /// Keywords near to the lexeme at the fault and to the one before it, and `letx :` as `let x :`.
    fn add_keywords(&mut self, index: usize) -> Result<(), AllocError> {
        self.put_near(self.lexeme(index), &KEYWORDS)?;
        self.put_near(self.before(index, 1), &KEYWORDS)?;
        if self.word(index) == b":".as_slice() {
            if let [b'l', b'e', b't', b'a'..=b'z', ..] = self.word_before(index, 1) {
                let at = self.before(index, 1).start.saturating_add(3);
                self.put(Reason::Edit, at, at, b" ")?;
            }
        }
        Ok(())
    }

    /// The words of a table that are near to a lexeme.
    fn put_near(&mut self, place: Lexeme, table: &[&str]) -> Result<(), AllocError> {
        for known in table {
            if are_near(self.text(place), known.as_bytes()) {
                self.put_at(Reason::Edit, place, known.as_bytes())?;
            }
        }
        Ok(())
    }

    /// A lexeme that stands twice, among those so many before the fault.
    fn add_doubled(&mut self, index: usize, from: usize, to: usize) -> Result<(), AllocError> {
        for back in from..to {
            let second = self.before(index, back);
            let first = self.before(index, back.saturating_add(1));
            let is_twice = self.text(first) == self.text(second) && first.end > first.start;
            if is_twice && !self.is_other_sign(index.saturating_sub(back)) {
                self.put_at(Reason::Edit, second, b"")?;
            }
        }
        Ok(())
    }

    /// Several expressions in the braces of a method, or behind `then`, `else`, `loop`, `in`.
    fn add_braces(&mut self, index: usize) -> Result<(), AllocError> {
        if self.word(index) != b";".as_slice() {
            return Ok(());
        }
        let (Some(open), Some(close)) = (self.opened(index), self.closed(index)) else {
            return Ok(());
        };
        let last = self.word_before(close, 1);
        let text: &'static [u8] = if last == b";".as_slice() {
            b"} "
        } else {
            b"; } "
        };
        let open = self.lexeme(open).end;
        let close = self.lexeme(close).start;
        let first = self.splice(open, open, b" {")?;
        let second = self.splice(close, close, text)?;
        let said = Reason::Hinted(Hint::BlockOfSeveral);
        self.put_two(said, first, second)
    }

    /// The nearest brace, or word that has an expression behind it, that is open at a position.
    fn opened(&self, index: usize) -> Option<usize> {
        let mut depth: usize = 0;
        for back in 1..index.saturating_add(1) {
            let word = self.word_before(index, back);
            if closes(word) {
                depth = depth.saturating_add(1);
            } else if depth == 0 && is_one_of(&OPENED, word) {
                return index.checked_sub(back);
            } else if opens(word) {
                depth = depth.saturating_sub(1);
            }
        }
        None
    }

    /// The brace or word that closes what is open at a position.
    fn closed(&self, index: usize) -> Option<usize> {
        let mut depth: usize = 0;
        for later in index..self.lexemes.len() {
            let word = self.word(later);
            if depth == 0 && is_one_of(&CLOSED, word) {
                return Some(later);
            } else if opens(word) {
                depth = depth.saturating_add(1);
            } else if closes(word) {
                depth = depth.saturating_sub(1);
            }
        }
        None
    }

    /// Two lexemes beside each other, exchanged: the one at the fault and the next, and then those before it.
    fn add_exchanged(&mut self, index: usize) -> Result<(), AllocError> {
        let next = index.saturating_add(1);
        for back in 0..LOOKED_BACK {
            let second = self.before(next, back);
            let first = self.before(next, back.saturating_add(1));
            if self.is_call(next.saturating_sub(back).saturating_sub(1)) {
                continue;
            }
            let text = self.exchanged(first, second)?;
            self.put(
                Reason::Hinted(Hint::Exchanged),
                first.start,
                second.end,
                &text,
            )?;
        }
        Ok(())
    }

    /// The second of two lexemes and then the first, with what stands between them, and no word joined to the one before it.
    fn exchanged(&self, first: Lexeme, second: Lexeme) -> Result<Vec<u8>, AllocError> {
        let mut text = Vec::new(self.alloc);
        let in_front = part(self.bytes, first.start.saturating_sub(1), first.start);
        if ends_word(in_front) && ends_word(self.text(second)) {
            text.push(b' ')?;
        }
        text.extend_from_slice(self.text(second))?;
        let between = part(self.bytes, first.end, second.start);
        text.extend_from_slice(between)?;
        if between.is_empty() && ends_word(self.text(first)) {
            text.push(b' ')?;
        }
        text.extend_from_slice(self.text(first))?;
        Ok(text)
    }

    /// Keywords and signs that may be missing in front of the lexeme so many before the fault.
    fn add_missing(&mut self, index: usize, back: usize) -> Result<(), AllocError> {
        let Some(there) = index.checked_sub(back) else {
            return Ok(());
        };
        let fits = fitting(self.alloc, self.bytes, self.lexemes, there, false)?;
        for fit in fits.as_slice() {
            self.insert(there, fit.word)?;
        }
        self.insert_each(there, &PIECES)?;
        self.is_guess = true;
        self.insert_each(there, &GUESSES)?;
        self.is_guess = false;
        Ok(())
    }

    /// Adds one with each of these words in front of the lexeme at a position.
    fn insert_each(&mut self, index: usize, words: &[&str]) -> Result<(), AllocError> {
        for word in words {
            self.insert(index, word.as_bytes())?;
        }
        Ok(())
    }

    /// Adds one with a word in front of the lexeme at a position: behind the one before it, or right in front of it where it opens something.
    pub(crate) fn insert(&mut self, index: usize, word: &[u8]) -> Result<(), AllocError> {
        let here = self.lexeme(index);
        let is_opener = is_opener(word);
        let place = if is_opener {
            here.start
        } else {
            self.before(index, 1).end
        };
        let in_front = part(self.bytes, place.saturating_sub(1), place);
        let behind = part(self.bytes, place, place.saturating_add(1));
        let is_name = ends_word(word);
        let is_close = matches!(word, b";" | b")" | b"," | b"." | b"(" | b"@" | b"~");
        let is_apart = if is_opener {
            ends_word(in_front) && is_name
        } else {
            !is_close && !is_blank(in_front)
        };
        let mut text = Vec::new(self.alloc);
        if is_apart {
            text.push(b' ')?;
        }
        text.extend_from_slice(word)?;
        if !is_close && !is_blank(behind) && !is_end(behind) {
            text.push(b' ')?;
        }
        self.put(Reason::Edit, place, place, &text)
    }

    /// Words that open something, in front of the expressions before the fault.
    fn add_openers(&mut self, index: usize) -> Result<(), AllocError> {
        for back in 1..LOOKED_FAR {
            let Some(there) = index.checked_sub(back) else {
                return Ok(());
            };
            if begins_expression(self.word_before(there, 1)) {
                self.insert_each(there, &OPENERS)?;
            }
            if kind_of(self.word_before(there, 1)) != Kind::Fixed {
                self.insert_each(there, &CLOSERS)?;
            }
        }
        Ok(())
    }

    /// Keywords and signs that may be meant in the place of the lexeme so many before the fault.
    fn add_others(&mut self, index: usize, back: usize) -> Result<(), AllocError> {
        let Some(there) = index.checked_sub(back) else {
            return Ok(());
        };
        let here = self.lexeme(there);
        if is_unknown(self.text(here)) {
            return Ok(());
        }
        let fits = fitting(self.alloc, self.bytes, self.lexemes, there, true)?;
        self.is_guess = true;
        for fit in fits.as_slice() {
            self.put_at(Reason::Edit, here, fit.word)?;
        }
        self.put_each(Reason::Edit, here, &PIECES)?;
        self.put_each(Reason::Edit, here, &GUESSES)?;
        self.is_guess = false;
        Ok(())
    }

    /// A name that is two, with what may be missing between them.
    pub(crate) fn add_parted(&mut self, index: usize, back: usize) -> Result<(), AllocError> {
        let here = self.before(index, back);
        let word = self.text(here);
        self.is_guess = true;
        for length in 1..word.len().min(MOST_LETTERS) {
            let (front, behind) = word.split_at(length);
            if is_known(self.bytes, self.lexemes, front)
                && is_known(self.bytes, self.lexemes, behind)
            {
                let place = here.start.saturating_add(length);
                let middle = Lexeme {
                    start: place,
                    end: place,
                };
                self.put_each(Reason::Edit, middle, &PARTING)?;
            }
        }
        self.is_guess = false;
        Ok(())
    }

    /// The lexeme so many before the fault may be one too many.
    pub(crate) fn add_extra(&mut self, index: usize, back: usize) -> Result<(), AllocError> {
        let there = index.saturating_sub(back);
        if self.is_other_sign(there) || self.is_other_sign(there.saturating_add(1)) {
            return Ok(());
        }
        self.put_at(Reason::Edit, self.before(index, back), b"")
    }

    /// Several words that may be missing in front of the fault.
    fn add_phrases(&mut self, index: usize) -> Result<(), AllocError> {
        let end = self.before(index, 1).end;
        self.put_each(Reason::Edit, Lexeme { start: end, end }, &PHRASES)
    }
}

/// Whether a word belongs to what stands behind it.
fn is_opener(word: &[u8]) -> bool {
    is_one_of(&OPENERS, word)
}

/// Whether a byte is a sign that stands right behind a word.
fn is_end(byte: &[u8]) -> bool {
    matches!(byte, b";" | b")" | b"," | b".")
}
