//! The operands and expressions around a position of a text are found here, where each begins and ends, by the lexemes only.

use crate::candidate::Candidates;
use crate::definition::is_class;
use crate::kind::{Kind, is_one_of, kind_of};
use crate::lexeme::{Lexeme, part};

/// The number of lexemes to each side that are looked at.
const LOOKED_WIDE: usize = 400;

impl<'a> Candidates<'a> {
    /// The position at which the operand begins that ends in front of a position: a name, a constant, or calls in a row.
    pub(crate) fn operand_start(&self, index: usize) -> usize {
        let mut depth: usize = 0;
        let mut start = index;
        for back in 1..index.min(LOOKED_WIDE).saturating_add(1) {
            let there = index.saturating_sub(back);
            match self.word(there) {
                b")" => depth = depth.saturating_add(1),
                b"(" if depth == 0 => return start,
                b"(" => depth = depth.saturating_sub(1),
                b"." | b"@" => {}
                word if depth == 0 && !self.is_joined(there, word) => return start,
                _ => {}
            }
            start = there;
        }
        start
    }

    /// Whether the word at a position is the end of an operand, or joined to it by a dot or a parenthesis.
    fn is_joined(&self, index: usize, word: &[u8]) -> bool {
        let next = self.word(index.saturating_add(1));
        kind_of(word) != Kind::Fixed && kind_of(next) == Kind::Fixed
    }

    /// The position behind the operand that begins at a position.
    pub(crate) fn operand_end(&self, index: usize) -> usize {
        let mut depth: usize = 0;
        for there in index..index.saturating_add(LOOKED_WIDE).min(self.lexemes.len()) {
            let next = self.word(there.saturating_add(1));
            match self.word(there) {
                b"(" => depth = depth.saturating_add(1),
                b")" => depth = depth.saturating_sub(1),
                _ => {}
            }
            if depth == 0
                && !matches!(next, b"." | b"@" | b"(")
                && self.word(there) != b".".as_slice()
            {
                return there.saturating_add(1);
            }
        }
        self.lexemes.len()
    }

    /// The position at which the expression begins that a position stands in: behind the nearest word or sign that has one behind it.
    pub(crate) fn expression_start(&self, index: usize) -> usize {
        let mut depth: usize = 0;
        for back in 1..index.min(LOOKED_WIDE).saturating_add(1) {
            let there = index.saturating_sub(back);
            let word = self.word(there);
            if depth == 0 && begins_expression(word) {
                return there.saturating_add(1);
            }
            if closes(word) {
                depth = depth.saturating_add(1);
            } else if opens(word) {
                depth = depth.saturating_sub(1);
            }
        }
        index.saturating_sub(LOOKED_WIDE)
    }

    /// The position behind the expression that a position stands in: of the nearest word or sign that ends one.
    pub(crate) fn expression_end(&self, index: usize) -> usize {
        let mut depth: usize = 0;
        for there in index..index.saturating_add(LOOKED_WIDE).min(self.lexemes.len()) {
            let word = self.word(there);
            if depth == 0 && ends_expression(word) {
                return there;
            }
            if opens(word) {
                depth = depth.saturating_add(1);
            } else if closes(word) {
                depth = depth.saturating_sub(1);
            }
        }
        self.lexemes.len()
    }

    /// The position of the parenthesis that closes the one at a position, or none where that is none or is not closed.
    pub(crate) fn closing(&self, open: usize) -> Option<usize> {
        let mut depth: usize = 0;
        for there in open..open.saturating_add(LOOKED_WIDE).min(self.lexemes.len()) {
            match self.word(there) {
                b"(" => depth = depth.saturating_add(1),
                b")" => depth = depth.saturating_sub(1),
                _ => {}
            }
            if depth == 0 {
                return if there > open { Some(there) } else { None };
            }
        }
        None
    }

    /// The position of the brace that closes the block in which a position stands; the number of lexemes if none does.
    pub(crate) fn block_end(&self, index: usize) -> usize {
        let mut depth: usize = 0;
        for there in index..self.lexemes.len() {
            let word = self.word(there);
            if word == b"{".as_slice() {
                depth = depth.saturating_add(1);
            } else if word == b"}".as_slice() {
                if depth == 0 {
                    return there;
                }
                depth = depth.saturating_sub(1);
            }
        }
        self.lexemes.len()
    }

    /// The position of the `class` of the class around a position; none if it stands in front of all classes.
    pub(crate) fn class_before(&self, index: usize) -> Option<usize> {
        for back in 0..index.saturating_add(1) {
            let there = index.saturating_sub(back);
            if is_class(self.word(there)) {
                return Some(there);
            }
        }
        None
    }

    /// The type of the nearest declaration of a name in front of a position.
    pub(crate) fn type_of_name(&self, name: &[u8], index: usize) -> Option<Lexeme> {
        for back in 1..index.saturating_add(1) {
            let there = index.saturating_sub(back);
            let is_it = self.word(there) == name
                && self.word(there.saturating_add(1)) == b":".as_slice();
            if is_it {
                return Some(self.lexeme(there.saturating_add(2)));
            }
        }
        None
    }

    /// The bytes from the lexeme at a position to the one in front of another.
    pub(crate) fn between(&self, start: usize, end: usize) -> &'a [u8] {
        part(
            self.bytes,
            self.lexeme(start).start,
            self.before(end, 1).end,
        )
    }
}

/// The words behind which an expression may begin; nothing is the begin of the file.
static BEGINNERS: [&str; 14] = [
    "", ";", "{", "(", ",", "<-", "=>", "then", "else", "loop", "in", "if", "while", "of",
];

/// The words that stand behind an expression.
static ENDERS: [&str; 12] = [
    ";", "}", ")", ",", "then", "else", "fi", "loop", "pool", "in", "of", "esac",
];

/// The words that begin what another one ends.
static OPENING: [&str; 5] = ["(", "{", "if", "while", "case"];

/// The words that end what another one begins.
static CLOSING: [&str; 5] = [")", "}", "fi", "pool", "esac"];

/// Whether an expression may begin behind a word.
pub(crate) fn begins_expression(word: &[u8]) -> bool {
    is_one_of(&BEGINNERS, word)
}

/// Whether a word stands behind an expression.
fn ends_expression(word: &[u8]) -> bool {
    is_one_of(&ENDERS, word)
}

/// Whether a word begins what another one ends.
pub(crate) fn opens(word: &[u8]) -> bool {
    is_one_of(&OPENING, word)
}

/// Whether a word ends what another one begins.
pub(crate) fn closes(word: &[u8]) -> bool {
    is_one_of(&CLOSING, word)
}
