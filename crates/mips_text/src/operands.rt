//! Access to the operands of a statement by their positions in the list of the line's tokens.

ghost use Rattle.std.specs.Prelude.{◌≡◌, map, option_map};
ghost use Rattle.mips_text.specs.Statements.{has_colon, has_name, has_open, label_at, name_at, number_at, raw_at, register_at};
ghost use Rattle.mips_text.specs.Views.{word_seen};

use crate::registers::register_named;
use crate::words::Word;
use mips_isa::Reg;
use mips_isa::register::ZERO;

/// The register at a place, or `$zero` for another word.
pub(crate) fn register_at(words: &[Word], index: usize) -> Reg
    ensures { result ≡ register_at (map word_seen words.now) index }
{
    match words.get(index) {
        Some(Word::Register(name)) => match register_named(name) {
            Some(register) => register,
            None => Reg::new(ZERO),
        },
        _ => Reg::new(ZERO),
    }
}

/// The number at a place, or 0 for another word.
pub(crate) fn number_at(words: &[Word], index: usize) -> i64
    ensures { result ≡ number_at (map word_seen words.now) index }
{
    match words.get(index) {
        Some(Word::Number(value)) => *value,
        _ => 0,
    }
}

/// The name at a place, if that word is one.
pub(crate) fn name_at<'a>(words: &[Word<'a>], index: usize) -> Option<&'a [u8]>
    ensures { option_map (λ name. name.now) result ≡ name_at (map word_seen words.now) index }
{
    match words.get(index) {
        Some(Word::Name(name)) => Some(*name),
        _ => None,
    }
}

/// The name at a place, or an empty one for another word.
pub(crate) fn label_at<'a>(words: &[Word<'a>], index: usize) -> &'a [u8]
    ensures { result.now ≡ label_at (map word_seen words.now) index }
{
    match words.get(index) {
        Some(Word::Name(name)) => *name,
        _ => &[],
    }
}

/// The bytes between the quotes of the string at a place, or nothing for another word.
pub(crate) fn raw_at<'a>(words: &[Word<'a>], index: usize) -> &'a [u8]
    ensures { result.now ≡ raw_at (map word_seen words.now) index }
{
    match words.get(index) {
        Some(Word::Text(raw)) => *raw,
        _ => &[],
    }
}

/// Whether a parenthesis opens at a place.
pub(crate) fn has_open(words: &[Word], index: usize) -> bool
    ensures { result ≡ has_open (map word_seen words.now) index }
{
    match words.get(index) {
        Some(Word::Open) => true,
        _ => false,
    }
}

/// Whether a name stands at a place.
pub(crate) fn has_name(words: &[Word], index: usize) -> bool
    ensures { result ≡ has_name (map word_seen words.now) index }
{
    match words.get(index) {
        Some(Word::Name(_)) => true,
        _ => false,
    }
}

/// Whether a colon stands at a place.
pub(crate) fn has_colon(words: &[Word], index: usize) -> bool
    ensures { result ≡ has_colon (map word_seen words.now) index }
{
    match words.get(index) {
        Some(Word::Colon) => true,
        _ => false,
    }
}
