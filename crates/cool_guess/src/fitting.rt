//! Words that may be missing between two lexemes are found here: those that stand between similar lexemes elsewhere in the text, or in a sample of Cool.

use crate::kind::{Kind, is_keyword, is_number, kind_of};
use crate::lexeme::{Lexeme, lexemes, part, word_at, word_before};
use std::alloc::{AllocError, Global};

/// A text that shows which words stand beside each other. Only its keywords and signs are taken: its names are none of those that a program has.
const SAMPLE: &'static str =
    "class A inherits B { a : T <- new T; a : T; a : T <- 1; a : T <- \"s\"; a : T <- true; \
    a() : T { { a <- a + 1; a.a(a, 1); out_string(\"s\"); out_string(a); a <- a; self; a; } }; \
    a(a : T) : T { a }; a(a : T, a : T) : T { { a <- a; self; } }; a() : T { a.a() }; a() : T { a(a - 1) + a(a - 1) }; \
    a() : T { if a = 1 then 1 else a * a(a - 1) fi }; a() : T { if a < a then a else a fi }; \
    a() : T { if isvoid a then true else false fi }; a() : T { if not a then { a; a; } else { a; } fi }; \
    a() : T { while a < 1 loop { a <- a + 1; a.a(); } pool }; a() : T { while not a <= a loop a <- a.a(a) pool }; \
    a() : T { let a : T <- 1, a : T <- new T in { a; a; } }; a() : T { let a : T in a }; a() : T { (let a : T <- a in a) }; \
    a() : T { case a of a : T => a; a : T => { a; a; }; a : T => 1; esac }; a() : T { (new T).a(a, a).a(\"s\") }; \
    a() : T { { if a then a else a fi; a; } }; a() : T { a@T.a(a) }; a() : T { ~a + (a / 1) }; a() : T { a(a, a.a()) }; \
    a() : SELF_TYPE { { a; self; } }; }; class A { a : T; }; ";

/// The number of lexemes to each side of a place that are looked at.
const LOOKED_AROUND: usize = 1000;

/// The most words that are found for a place.
pub(crate) const MOST_FITTING: usize = 24;

/// A word, and how well it fits.
#[derive(Clone, Copy)]
pub(crate) struct Fit<'a> {
    pub(crate) word: &'a [u8],
    pub(crate) weight: usize,
}

/// The words around a place: two before it, and two behind it.
#[derive(Clone, Copy)]
pub(crate) struct Place<'a> {
    pub(crate) words: [&'a [u8]; 4],
}

/// The words that fit a place of a text, the best first; what stands there itself, at `index` where `is_taken`, does not count. Returns `Err` only if
/// memory runs out.
pub(crate) fn fitting<'a>(
    alloc: Global,
    bytes: &'a [u8],
    lexemes: &[Lexeme],
    index: usize,
    is_taken: bool,
) -> Result<Vec<Fit<'a>>, AllocError> {
    let behind = index.saturating_add(usize::from(is_taken));
    let place = Place {
        words: [
            word_before(bytes, lexemes, index, 2),
            word_before(bytes, lexemes, index, 1),
            word_at(bytes, lexemes, behind),
            word_at(bytes, lexemes, behind.saturating_add(1)),
        ],
    };
    let mut found = Vec::new(alloc);
    let first = index.saturating_sub(LOOKED_AROUND);
    let last = index.saturating_add(LOOKED_AROUND).min(lexemes.len());
    for there in first..last {
        if there != index || !is_taken {
            add_fit(&mut found, bytes, lexemes, there, &place)?;
        }
    }
    add_sample(alloc, &mut found, &place)?;
    best(alloc, &found)
}

/// Adds the keywords and signs that fit by the sample.
fn add_sample(
    alloc: Global,
    found: &mut Vec<Fit<'_>>,
    place: &Place<'_>,
) -> Result<(), AllocError> {
    let shown = lexemes(alloc, SAMPLE.as_bytes())?;
    for there in 0..shown.len() {
        if kind_of(word_at(SAMPLE.as_bytes(), &shown, there)) == Kind::Fixed {
            add_fit(found, SAMPLE.as_bytes(), &shown, there, place)?;
        }
    }
    Ok(())
}

/// Adds how well the word at a position of a text fits a place.
fn add_fit<'a>(
    found: &mut Vec<Fit<'a>>,
    bytes: &'a [u8],
    lexemes: &[Lexeme],
    index: usize,
    place: &Place<'_>,
) -> Result<(), AllocError> {
    let [farther, left, right, further] = place.words;
    let near = likeness(word_before(bytes, lexemes, index, 1), left);
    if near == 0 {
        return Ok(());
    }
    let next = likeness(word_at(bytes, lexemes, index.saturating_add(1)), right);
    if next == 0 {
        return Ok(());
    }
    let near = near.saturating_mul(next);
    let far = likeness(word_before(bytes, lexemes, index, 2), farther).saturating_add(1);
    let beyond = likeness(word_at(bytes, lexemes, index.saturating_add(2)), further).saturating_add(
        1,
    );
    let weight = near.saturating_mul(far).saturating_mul(beyond);
    let word = word_at(bytes, lexemes, index);
    for known in found.iter_mut() {
        if known.word == word {
            known.weight = known.weight.saturating_add(weight);
            return Ok(());
        }
    }
    found.push(Fit { word, weight })?;
    Ok(())
}

/// The likeness of two words: 4 if they are the same, 1 if they are of one kind, else 0.
fn likeness(a: &[u8], b: &[u8]) -> usize {
    if a == b {
        return 4;
    }
    let kind = kind_of(a);
    usize::from(kind != Kind::Fixed && kind == kind_of(b))
}

/// The best of them, the best first.
fn best<'a>(alloc: Global, found: &[Fit<'a>]) -> Result<Vec<Fit<'a>>, AllocError> {
    let mut all: Vec<Fit<'a>> = Vec::new(alloc);
    let mut most = usize::MAX;
    let mut taken: usize = 0;
    for _ in 0..MOST_FITTING {
        let mut next: usize = 0;
        for fit in found {
            if fit.weight < most && fit.weight > next {
                next = fit.weight;
            }
        }
        if next == 0 {
            return Ok(all);
        }
        for fit in found {
            if fit.weight == next && taken < MOST_FITTING {
                taken = taken.saturating_add(1);
                all.push(*fit)?;
            }
        }
        most = next;
    }
    Ok(all)
}

/// Whether a word is a keyword or a number, or stands in a text.
pub(crate) fn is_known(bytes: &[u8], lexemes: &[Lexeme], word: &[u8]) -> bool {
    if is_keyword(word) || is_number(word) {
        return true;
    }
    for lexeme in lexemes {
        if part(bytes, lexeme.start, lexeme.end) == word {
            return true;
        }
    }
    false
}
