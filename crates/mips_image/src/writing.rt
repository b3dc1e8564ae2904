//! Writing an image (an executable program) as bytes.

ghost use Rattle.std.specs.Prelude.{◌≡◌, ◌++◌, IfOk, OnOk, flat_map, length, ◌<◌, ◌^◌};
ghost use Rattle.mips_image.specs.ImageBytes.{word_bytes, image_bytes, IsVersion};

use crate::{HEADER_BYTES, MAGIC};
use byteorder::{ByteOrder, LittleEndian};
use mips_isa::Image;
use std::alloc::{AllocError, Global};

/// The bytes of an image in a version, 1 or 2. Returns `Err` only if memory runs out.
pub fn write_image(alloc: Global, image: &Image, version: u32) -> Result<Vec<u8>, AllocError>
    requires version { IsVersion version }
    ensures bytes { IfOk result (λ bytes. bytes.items ≡ image_bytes version image.now) }
{
    let size = HEADER_BYTES + 4 * image.text.len() + image.bytes.len();
    let mut bytes = Vec::with_capacity(alloc, size)?;
    bytes.extend_from_slice(&MAGIC)?;
    push_word(&mut bytes, version)?;
    push_word(&mut bytes, image.text.len() as u32)?;
    push_word(&mut bytes, image.bytes.len() as u32)?;
    push_word(&mut bytes, image.entry)?;
    push_words(&mut bytes, &image.text)?;
    bytes.extend_from_slice(&image.bytes)?;
    Ok(bytes)
}

fn push_words(bytes: &mut Vec<u8>, words: &[u32]) -> Result<(), AllocError>
    ensures { OnOk result (bytes.new.items ≡ bytes.old.items ++ flat_map word_bytes words.now) }
{
    for word in words {
        push_word(bytes, *word)?;
    }
    Ok(())
}

fn push_word(bytes: &mut Vec<u8>, word: u32) -> Result<(), AllocError>
    ensures { OnOk result (bytes.new.items ≡ bytes.old.items ++ word_bytes word) }
{
    let mut four = [0; 4];
    LittleEndian::write_u32(&mut four, word);
    bytes.extend_from_slice(&four)
}
