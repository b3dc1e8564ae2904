//! Reading an image (an executable program) and its version from bytes, with a test for each error.

ghost use Rattle.std.specs.Prelude.{◌≡◌, ◌+◌, ◌*◌, ◌≤◌, ℕ, length, None, Some, MatchResult, IfOk, IsNone, take, drop, bytes_eq, true};
ghost use Rattle.mips_isa.specs.ImageBounds.{ImageParts, IsImage};
ghost use Rattle.mips_image.specs.ImageBytes.{image_bytes, IsVersion, HasWords};
ghost use Rattle.mips_image.specs.ImageReading.{HasHeader, word_at, words_at, are_sizes, size_fault, size_of, first_fault, parts_of, Reads, IsReadAs};

use crate::{
    CHECKED_VERSION, DATA_BYTES_PLACE, ENTRY_PLACE, HEADER_BYTES, ImageError, MAGIC, StoredImage,
    UNCHECKED_VERSION, VERSION_PLACE, WORDS_PLACE,
};
use byteorder::{ByteOrder, LittleEndian};
use mips_isa::{Image, MOST_DATA_BYTES, MOST_TEXT_WORDS, TEXT_START};
use std::alloc::{AllocError, Global};

/// The image of these bytes and its version, or their first fault.
///
/// The tests, in order: fewer bytes than the header has is I3, another magic I1, a version other than the two I2, sizes or an entry out of range I4, fewer
/// bytes than the sizes say I3, and more I5. Returns `Memory` only if memory runs out.
pub fn read_image(alloc: Global, bytes: &[u8]) -> Result<StoredImage, ImageError>
    // The result has these bytes, in version 1 or 2.
    ensures found { IfOk result (λ stored. bytes.now ≡ image_bytes stored.version stored.image) }
    ensures version { IfOk result (λ stored. IsVersion stored.version) }
    // It has the bounds of an image, and words of 32 bits.
    ensures image { IfOk result (λ stored. IsImage stored.image × HasWords stored.image) }

    // The bytes of an image are read as that image in that version, unless memory runs out.
    ensures only { (version : ℕ) (image : ImageParts) → IsVersion version → IsImage image → HasWords image → bytes.now ≡ image_bytes version image → IsReadAs version image result }

    // The fault is the first one.
    ensures exact { Reads bytes.now result }
{
    read_all(alloc, bytes)
}

fn read_all(alloc: Global, bytes: &[u8]) -> Result<StoredImage, ImageError>
    ensures { Reads bytes.now result }
{
    let header = read_header(bytes)?;
    let (_, behind) = bytes.split_at(HEADER_BYTES);
    let text = read_words(alloc, behind, header.words)?;
    let (_, data_bytes) = bytes.split_at(HEADER_BYTES + 4 * header.words as usize);
    let data_bytes = Vec::from_slice(alloc, data_bytes)?;
    Ok(StoredImage {
        image: Image {
            entry: header.entry,
            text,
            bytes: data_bytes,
        },
        version: header.version,
    })
}

/// The contents of the header.
#[derive(Clone, Copy)]
struct Header {
    version: u32,
    words: u32,
    data_bytes: u32,
    entry: u32,
}

/// The header of bytes without a fault, or their first fault.
#[tactic(auto, unfolding(crate::specs::ImageReading::first_fault))]
fn read_header(bytes: &[u8]) -> Result<Header, ImageError>
    ensures { MatchResult result (λ header. HasHeader bytes.now header.version header.words header.data_bytes header.entry) (λ fault. first_fault bytes.now ≡ Some fault) }
{
    if bytes.len() < HEADER_BYTES {
        return Err(ImageError::I3);
    }
    if !has_magic(bytes) {
        return Err(ImageError::I1);
    }
    let version = read_word(bytes, VERSION_PLACE);
    if version != UNCHECKED_VERSION && version != CHECKED_VERSION {
        return Err(ImageError::I2);
    }
    let header = Header {
        version,
        words: read_word(bytes, WORDS_PLACE),
        data_bytes: read_word(bytes, DATA_BYTES_PLACE),
        entry: read_word(bytes, ENTRY_PLACE),
    };
    match sizes_fault(bytes, &header) {
        Some(fault) => Err(fault),
        None => Ok(header),
    }
}

fn has_magic(bytes: &[u8]) -> bool
    requires { VERSION_PLACE ≤ length bytes.now }
    ensures { result ≡ bytes_eq (take VERSION_PLACE bytes.now) MAGIC }
{
    let (front, _) = bytes.split_at(VERSION_PLACE);
    front == MAGIC.as_slice()
}

/// The number in the four bytes from a place on.
#[tactic(auto, unfolding(crate::specs::ImageReading::word_at))]
fn read_word(bytes: &[u8], place: usize) -> u32
    requires { place + 4 ≤ length bytes.now }
    ensures { result ≡ word_at bytes.now place }
{
    let (_, behind) = bytes.split_at(place);
    LittleEndian::read_u32(behind)
}

/// The fault of bytes with this header, if there is one.
fn sizes_fault(bytes: &[u8], header: &Header) -> Option<ImageError>
    requires { HEADER_BYTES ≤ length bytes.now }
    ensures fault { result ≡ size_fault bytes.now header.now.words header.now.data_bytes header.now.entry }
    ensures sizes { IsNone result → are_sizes header.now.words header.now.data_bytes header.now.entry ≡ true }
    ensures size { IsNone result → length bytes.now ≡ size_of header.now.words header.now.data_bytes }
{
    if !has_sizes(header) {
        return Some(ImageError::I4);
    }
    let size = HEADER_BYTES + 4 * header.words as usize + header.data_bytes as usize;
    if bytes.len() < size {
        return Some(ImageError::I3);
    }
    if size < bytes.len() {
        return Some(ImageError::I5);
    }
    None
}

fn has_sizes(header: &Header) -> bool
    ensures { result ≡ are_sizes header.now.words header.now.data_bytes header.now.entry }
{
    1 <= header.words
        && header.words <= MOST_TEXT_WORDS
        && header.data_bytes <= MOST_DATA_BYTES
        && header.entry % 4 == 0
        && TEXT_START <= header.entry
        && (header.entry as usize) < TEXT_START as usize + 4 * header.words as usize
}

/// So many numbers, one after another.
fn read_words(alloc: Global, bytes: &[u8], count: u32) -> Result<Vec<u32>, AllocError>
    requires { 4 * count ≤ length bytes.now }
    ensures { IfOk result (λ words. words.items ≡ words_at count bytes.now) }
{
    let mut words = Vec::with_capacity(alloc, count as usize)?;
    let mut rest = bytes;
    for _word in 0..count {
        words.push(read_word(rest, 0))?;
        let (_, behind) = rest.split_at(4);
        rest = behind;
    }
    Ok(words)
}
