//! The conversion of a number to the type of its operand: the number if it is in the operand's range, and 0 otherwise.

ghost use Rattle.std.specs.Prelude.{◌≡◌};
ghost use Rattle.mips_text.specs.declared.wanted.Range.TheVariants.{Signed, Unsigned, Shift, Index, Word, Byte, Space, Power};
ghost use Rattle.mips_text.specs.Statements.{kept, natural};

use mips_isa::MOST_DATA_BYTES;

/// The most bytes of the data.
const MOST_BYTES: i64 = MOST_DATA_BYTES as i64;

/// An immediate that is extended by its sign, or the offset of a branch.
pub(crate) fn signed(value: i64) -> i32
    ensures { result ≡ kept Signed value }
{
    match value {
        -32768..=32767 => value as i32,
        _ => 0,
    }
}

/// An immediate that is extended by zeros.
pub(crate) fn unsigned(value: i64) -> i32
    ensures { result ≡ kept Unsigned value }
{
    match value {
        0..=65535 => value as i32,
        _ => 0,
    }
}

/// The number of bits by which a word is shifted.
pub(crate) fn shift_count(value: i64) -> u32
    ensures { result ≡ natural (kept Shift value) }
{
    match value {
        0..=31 => value as u32,
        _ => 0,
    }
}

/// The index of a jump.
pub(crate) fn jump_index(value: i64) -> u32
    ensures { result ≡ natural (kept Index value) }
{
    match value {
        0..=67_108_863 => value as u32,
        _ => 0,
    }
}

/// A number that fits a word, with or without a sign.
pub(crate) fn word_number(value: i64) -> i64
    ensures { result ≡ kept Word value }
{
    match value {
        -2_147_483_648..=4_294_967_295 => value,
        _ => 0,
    }
}

/// A number that fits a byte, with or without a sign.
pub(crate) fn byte_number(value: i64) -> i32
    ensures { result ≡ kept Byte value }
{
    match value {
        -128..=255 => value as i32,
        _ => 0,
    }
}

/// The number of zero bytes that are reserved.
pub(crate) fn space_size(value: i64) -> u32
    ensures { result ≡ natural (kept Space value) }
{
    match value {
        0..=MOST_BYTES => value as u32,
        _ => 0,
    }
}

/// The power of two that is padded to.
pub(crate) fn align_power(value: i64) -> u32
    ensures { result ≡ natural (kept Power value) }
{
    match value {
        0..=12 => value as u32,
        _ => 0,
    }
}
