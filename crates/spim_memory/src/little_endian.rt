//! Reading and writing half words and words in a segment, the lowest byte first.

ghost use Rattle.std.specs.Prelude.{◌≡◌, ◌+◌, ◌*◌, ◌≤◌, length, slice_index};
ghost use Rattle.spim_memory.specs.Places.{set_two, set_four};

use byteorder::{ByteOrder, LittleEndian};

/// The half at an offset.
pub(crate) fn read_half(bytes: &[u8], offset: usize) -> u16
    requires { offset + 2 ≤ length bytes.now }
    ensures { result ≡ slice_index bytes.now offset + 256 * slice_index bytes.now (offset + 1) }
{
    LittleEndian::read_u16(&bytes[offset..])
}

/// The word at an offset.
pub(crate) fn read_word(bytes: &[u8], offset: usize) -> u32
    requires { offset + 4 ≤ length bytes.now }
    ensures { result ≡ slice_index bytes.now offset + 256 * slice_index bytes.now (offset + 1) + 65536 * slice_index bytes.now (offset + 2) + 16777216 * slice_index bytes.now (offset + 3) }
{
    LittleEndian::read_u32(&bytes[offset..])
}

/// Writes a half at an offset.
pub(crate) fn write_half(bytes: &mut [u8], offset: usize, v: u16)
    requires { offset + 2 ≤ length bytes.old }
    ensures { bytes.new ≡ set_two bytes.old offset v }
{
    bytes[offset] = (v % 0x100) as u8;
    bytes[offset + 1] = (v >> 8) as u8;
}

/// Writes a word at an offset.
pub(crate) fn write_word(bytes: &mut [u8], offset: usize, v: u32)
    requires { offset + 4 ≤ length bytes.old }
    ensures { bytes.new ≡ set_four bytes.old offset v }
{
    bytes[offset] = (v % 0x100) as u8;
    bytes[offset + 1] = ((v >> 8) % 0x100) as u8;
    bytes[offset + 2] = ((v >> 16) % 0x100) as u8;
    bytes[offset + 3] = (v >> 24) as u8;
}
