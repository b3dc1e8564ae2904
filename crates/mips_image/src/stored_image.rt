//! An image (an executable program) with its version, and the constants of the file format.

use mips_isa::Image;

/// An image and the version of its bytes.
///
/// Version 1 marks code that was compiled before the compiler checked arithmetic for overflow, or written by hand. Version 2 marks code that was compiled
/// from Cool, with arithmetic that ends the run on overflow. The machine executes both versions in the same way.
#[derive(Drop)]
pub struct StoredImage {
    pub image: Image,
    pub version: u32,
}

/// The magic number: a byte with which no text begins, and the letters `CMI`.
pub const MAGIC: [u8; 4] = [0x7f, b'C', b'M', b'I'];

/// The place of the version in the bytes, after the magic number.
pub const VERSION_PLACE: usize = 4;

/// The place of the number of words of the text.
pub const WORDS_PLACE: usize = 8;

/// The place of the number of bytes of the data.
pub const DATA_BYTES_PLACE: usize = 12;

/// The place of the entry.
pub const ENTRY_PLACE: usize = 16;

/// The bytes of the header.
pub const HEADER_BYTES: usize = 20;

/// The version of code that was compiled before the compiler checked arithmetic for overflow, or written by hand.
pub const UNCHECKED_VERSION: u32 = 1;

/// The version of code that was compiled from Cool, with arithmetic that ends the run on overflow.
pub const CHECKED_VERSION: u32 = 2;
