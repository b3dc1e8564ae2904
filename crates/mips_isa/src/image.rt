//! The image (executable program) that a machine loads: text, data and entry address.

use std::marker::Model;

/// The words of a text, from `TEXT_START` on, the bytes of the data, from `DATA_START` on, and the address at which a run
/// begins.
///
/// There are 1 to `MOST_TEXT_WORDS` words and at most `MOST_DATA_BYTES` bytes, and the entry is the address of a word of the
/// text. A contract sees lists.
#[derive(Drop)]
pub struct Image {
    pub entry: u32,
    pub text: Vec<u32>,
    pub bytes: Vec<u8>,
}

impl Model for Image {
    ghost use Rattle.mips_isa.specs.ImageBounds.{ImageParts, IsImage};

    ghost Value = { ImageParts };

    ghost view = { λ i. record { entry = i.entry; text = i.text.items; bytes = i.bytes.items } };

    ghost invariant = { λ i. IsImage (record { entry = i.entry; text = i.text.items; bytes = i.bytes.items }) };
}
