//! The kinds of operands that a statement of assembly expects, and the error for a token that is none of them.

ghost use Rattle.std.specs.Prelude.{◌≡◌, map};
ghost use Rattle.mips_text.specs.Operands.{each_fault, fault_unless, is_within, many_fault, misplaced, row_fault, word_fault};
ghost use Rattle.mips_text.specs.Views.{word_seen};

use crate::registers::register_named;
use crate::strings::all_known;
use crate::words::Word;
use mips_isa::{AsmKind, MOST_DATA_BYTES};

/// The range of a number.
#[derive(Clone, Copy)]
pub(crate) enum Range {
    /// An immediate that is extended by its sign, or the offset of a branch.
    Signed,
    /// An immediate that is extended by zeros.
    Unsigned,
    /// The number of bits by which a word is shifted.
    Shift,
    /// The index of a jump.
    Index,
    /// A word, with or without a sign.
    Word,
    /// A byte, with or without a sign.
    Byte,
    /// The number of zero bytes that are reserved.
    Space,
    /// The power of two that is padded to.
    Power,
}

/// The kind of operand that is expected at a place.
#[derive(Clone, Copy)]
pub(crate) enum Wanted {
    Register,
    Number(Range),
    Name,
    /// A number or a name.
    Target(Range),
    Text,
    Open,
    Close,
}

/// The most bytes of the data.
const MOST_BYTES: i64 = MOST_DATA_BYTES as i64;

/// Whether a number is in its range.
pub(crate) fn is_within(range: Range, value: i64) -> bool
    ensures { result ≡ is_within range value }
{
    match range {
        Range::Signed => matches!(value, -32768..=32767),
        Range::Unsigned => matches!(value, 0..=65535),
        Range::Shift => matches!(value, 0..=31),
        Range::Index => matches!(value, 0..=67_108_863),
        Range::Word => matches!(value, -2_147_483_648..=4_294_967_295),
        Range::Byte => matches!(value, -128..=255),
        Range::Space => matches!(value, 0..=MOST_BYTES),
        Range::Power => matches!(value, 0..=12),
    }
}

/// The first fault of the words of a row, each of which has its place.
pub(crate) fn row_fault(wanted: &[Wanted], words: &[Word]) -> Option<AsmKind>
    ensures { result ≡ row_fault wanted.now (map word_seen words.now) }
{
    match words {
        [] => match wanted {
            [] => None,
            [_, ..] => Some(AsmKind::A2),
        },
        [word, words @ ..] => match wanted {
            [] => Some(misplaced(*word)),
            [first, wanted @ ..] => match word_fault(*first, *word) {
                Some(kind) => Some(kind),
                None => row_fault(wanted, words),
            },
        },
    }
}

/// The first fault of words of one kind, of which there is one at least.
pub(crate) fn many_fault(wanted: Wanted, words: &[Word]) -> Option<AsmKind>
    ensures { result ≡ many_fault wanted (map word_seen words.now) }
{
    match words {
        [] => Some(AsmKind::A2),
        [_, ..] => each_fault(wanted, words),
    }
}

/// The first fault of words of one kind.
fn each_fault(wanted: Wanted, words: &[Word]) -> Option<AsmKind>
    ensures { result ≡ each_fault wanted (map word_seen words.now) }
{
    for word in words {
        if let Some(kind) = word_fault(wanted, *word) {
            return Some(kind);
        }
    }
    None
}

/// The fault of a word, if it is not the kind that is expected at its place.
fn word_fault(wanted: Wanted, word: Word) -> Option<AsmKind>
    ensures { result ≡ word_fault wanted (word_seen word.entry) }
{
    match (wanted, word) {
        (_, Word::Stray) => Some(AsmKind::A1),
        (Wanted::Register, Word::Register(name)) => {
            fault_unless(register_named(name).is_some(), AsmKind::A2)
        }
        (Wanted::Number(range), Word::Number(value))
        | (Wanted::Target(range), Word::Number(value)) => {
            fault_unless(is_within(range, value), AsmKind::A3)
        }
        (Wanted::Name, Word::Name(_)) | (Wanted::Target(_), Word::Name(_)) => None,
        (Wanted::Text, Word::Text(raw)) => fault_unless(all_known(raw), AsmKind::A2),
        (Wanted::Open, Word::Open) | (Wanted::Close, Word::Close) => None,
        _ => Some(AsmKind::A2),
    }
}

/// None if the test holds.
fn fault_unless(holds: bool, kind: AsmKind) -> Option<AsmKind>
    ensures { result ≡ fault_unless holds kind }
{
    if holds { None } else { Some(kind) }
}

/// The fault of a word if none is expected.
fn misplaced(word: Word) -> AsmKind
    ensures { result ≡ misplaced (word_seen word.entry) }
{
    match word {
        Word::Stray => AsmKind::A1,
        _ => AsmKind::A2,
    }
}
