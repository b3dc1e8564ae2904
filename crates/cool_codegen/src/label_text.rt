//! Functions that build the text of an assembly label: a word, followed by numbers in decimal.

ghost use Rattle.std.specs.Prelude.{◌≡◌, ◌++◌, decimal, IfOk, OnOk};

use itoa::Buffer;
use std::alloc::{AllocError, Global};

/// The bytes that most labels do not pass. A longer one takes more as it grows.
const USUAL_BYTES: usize = 24;

/// A text that begins with a word. Returns `Err` only if memory runs out.
pub(crate) fn text_of(alloc: Global, word: &[u8]) -> Result<Vec<u8>, AllocError>
    ensures { IfOk result (λ text. text.items ≡ word.now) }
{
    let mut text = Vec::with_capacity(alloc, USUAL_BYTES)?;
    text.extend_from_slice(word)?;
    Ok(text)
}

/// Adds a number, in decimal. Returns `Err` only if memory runs out.
pub(crate) fn add_number(text: &mut Vec<u8>, number: u32) -> Result<(), AllocError>
    ensures { OnOk result (text.new.items ≡ text.old.items ++ decimal number) }
{
    let mut digits = Buffer::new();
    text.extend_from_slice(digits.format(number).as_bytes())
}
