//! String constants of assembly: their escapes, and the bytes that they stand for.

ghost use Rattle.std.specs.Prelude.{◌≡◌, false, IfOk};
ghost use Rattle.mips_text.specs.Strings.{all_known, closes_string, is_known, letter, opens_escape, unescaped};

use std::alloc::{AllocError, Global};

/// Whether this byte begins an escape, after a backslash or not.
pub(crate) fn opens_escape(escaped: bool, byte: u8) -> bool
    ensures { result ≡ opens_escape escaped byte }
{
    !escaped && byte == b'\\'
}

/// Whether this byte ends a string, after a backslash or not.
pub(crate) fn closes_string(escaped: bool, byte: u8) -> bool
    ensures { result ≡ closes_string escaped byte }
{
    !escaped && byte == b'"'
}

/// Whether all escapes of a string are known.
pub(crate) fn all_known(raw: &[u8]) -> bool
    ensures { result ≡ all_known false raw.now }
{
    let mut escaped = false;
    for byte in raw {
        if !is_known(escaped, *byte) {
            return false;
        }
        escaped = opens_escape(escaped, *byte);
    }
    !escaped
}

/// Whether this byte may stand there, after a backslash or not.
fn is_known(escaped: bool, byte: u8) -> bool
    ensures { result ≡ is_known escaped byte }
{
    !escaped || matches!(byte, b'n' | b't' | b'"' | b'\\')
}

/// The bytes that a string stands for. Returns `Err` only if memory runs out.
pub(crate) fn unescaped(alloc: Global, raw: &[u8]) -> Result<Vec<u8>, AllocError>
    ensures { IfOk result (λ bytes. bytes.items ≡ unescaped false raw.now) }
{
    let mut bytes = Vec::new(alloc);
    let mut escaped = false;
    for byte in raw {
        if opens_escape(escaped, *byte) {
            escaped = true;
            continue;
        }
        bytes.push(letter(escaped, *byte))?;
        escaped = false;
    }
    Ok(bytes)
}

/// The byte that this one stands for, after a backslash or not.
fn letter(escaped: bool, byte: u8) -> u8
    ensures { result ≡ letter escaped byte }
{
    match byte {
        b'n' if escaped => b'\n',
        b't' if escaped => b'\t',
        _ => byte,
    }
}
