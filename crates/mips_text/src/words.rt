//! The tokens of a line of assembly (names, numbers, registers, strings and signs), and scanning them.

ghost use Rattle.std.specs.Prelude.{◌≡◌, ◌∷◌, [], ◌<◌, ◌≤◌, IfSome, MatchOption, OnOk, length, map, option_map};
ghost use Rattle.mips_text.specs.Words.{words_behind, words_of, with_front};
ghost use Rattle.mips_text.specs.Views.{found_seen, word_seen};

use crate::class::{Class, class_of};
use crate::fronts::{Found, front_at};
use std::alloc::AllocError;

/// A word of a line.
#[derive(Clone, Copy)]
pub(crate) enum Word<'a> {
    Name(&'a [u8]),
    /// A number, or one past every range in place of a larger one.
    Number(i64),
    /// The bytes after a `$`.
    Register(&'a [u8]),
    /// The bytes between the quotes of a string, with its escapes.
    Text(&'a [u8]),
    Colon,
    Open,
    Close,
    /// A byte that begins no word, or a string that is not closed.
    Stray,
}

/// Fills the list with the words of a line, up to the first one that is none. Returns `Err` only if memory runs out.
pub(crate) fn fill_words<'a>(words: &mut Vec<Word<'a>>, line: &'a [u8]) -> Result<(), AllocError>
    ensures { OnOk result (map word_seen words.new.items ≡ words_of line.now) }
{
    words.clear();
    let mut rest = line;
    while let Some(Cut { word, behind }) = next_word(rest) {
        words.push(word)?;
        rest = behind;
    }
    Ok(())
}

/// A word, and the bytes in which the words behind it stand.
#[derive(Clone, Copy)]
struct Cut<'a> {
    word: Word<'a>,
    behind: &'a [u8],
}

/// The next word. There is none at the line's end, or before a comment.
fn next_word(line: &[u8]) -> Option<Cut<'_>>
    ensures exact { MatchOption result (words_of line.now ≡ []) (λ cut. words_of line.now ≡ word_seen cut.word ∷ words_of cut.behind.now) }
    ensures shorter { IfSome result (λ cut. length cut.behind.now < length line.now) }
{
    let mut rest = line;
    while let [first, tail @ ..] = rest {
        match class_of(*first) {
            Class::Blank => rest = tail,
            Class::Comment => return None,
            Class::Word(start) => return Some(cut_at(front_at(start, rest, *first, tail), tail)),
        }
    }
    None
}

/// The word that was found at a place, and the bytes behind it. Nothing is behind bytes that begin no word.
fn cut_at<'a>(found: Option<Found<'a>>, tail: &'a [u8]) -> Cut<'a>
    requires { IfSome found (λ f. f.after ≤ length tail.now) }
    ensures exact { word_seen result.word ∷ words_of result.behind.now ≡ with_front (option_map found_seen found.entry) (λ n. words_behind n tail.now) }
    ensures shorter { length result.behind.now ≤ length tail.now }
{
    match found {
        Some(found) => cut_behind(found, tail),
        None => Cut {
            word: Word::Stray,
            behind: &[],
        },
    }
}

/// The word that was found at a place, and the bytes behind it.
fn cut_behind<'a>(found: Found<'a>, tail: &'a [u8]) -> Cut<'a>
    requires { found.after ≤ length tail.now }
    ensures word { word_seen result.word ≡ word_seen found.entry.word }
    ensures behind { words_of result.behind.now ≡ words_behind found.entry.after tail.now }
    ensures shorter { length result.behind.now ≤ length tail.now }
{
    Cut {
        word: found.word,
        behind: &tail[found.after..],
    }
}
