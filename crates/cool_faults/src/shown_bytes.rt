//! `shown` replaces the characters of a text that would control a terminal, such as escape characters, by `?`.

ghost use Rattle.std.specs.Prelude.{◌≡◌, IfOk, length};
ghost use Rattle.cool_faults.specs.Shown.{obeyed, obeyed_from, shown, shown_byte, shown_first};

use std::alloc::{AllocError, Global};

/// The text with `?` for each byte of a character that a terminal obeys: a control character, or a mark of text direction. A tab stays, and a carriage return
/// becomes a space. Returns `Err` only if memory runs out.
#[tactic(auto, using(crate::proofs::ShownTexts::one_more), unfolding(crate::specs::Shown::shown))]
pub fn shown(alloc: Global, text: &[u8]) -> Result<Vec<u8>, AllocError>
    ensures is { IfOk result (λ bytes. bytes.items ≡ shown text.now) }
    ensures length { IfOk result (λ bytes. length bytes.items ≡ length text.now) }
{
    let mut bytes = Vec::new(alloc);
    let mut left = 0;
    for index in 0..text.len() {
        let due = obeyed_from(left, &text[index..]);
        bytes.push(shown_first(due, text[index]))?;
        left = due.saturating_sub(1);
    }
    Ok(bytes)
}

/// The number of bytes of the character beyond ASCII that a terminal obeys at the front of a text; 0 if there is none.
fn obeyed(text: &[u8]) -> usize
    ensures { result ≡ obeyed text.now }
{
    match text {
        [0xc2, 0x80..=0x9f, ..] | [0xd8, 0x9c, ..] => 2,
        [0xe2, 0x80, 0x8e | 0x8f | 0xaa..=0xae, ..] | [0xe2, 0x81, 0xa6..=0xa9, ..] => 3,
        _ => 0,
    }
}

/// The same, where the first `left` bytes are the rest of such a character.
fn obeyed_from(left: usize, text: &[u8]) -> usize
    ensures { result ≡ obeyed_from left text.now }
{
    if left == 0 { obeyed(text) } else { left }
}

/// A byte as it is shown, where it is the first of `due` bytes of such a character.
fn shown_first(due: usize, byte: u8) -> u8
    ensures { result ≡ shown_first due byte }
{
    if due == 0 { shown_byte(byte) } else { b'?' }
}

/// A byte as it is shown by itself.
fn shown_byte(byte: u8) -> u8
    ensures { result ≡ shown_byte byte }
{
    match byte {
        b'\t' => byte,
        b'\r' => b' ',
        _ if byte.is_ascii_control() => b'?',
        _ => byte,
    }
}
