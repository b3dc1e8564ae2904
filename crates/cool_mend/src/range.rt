//! `range_at` finds the range of a file that an explanation marks at a place, such as the token that begins there.

ghost use Rattle.std.specs.Prelude.{◌≡◌, [], IfOk, get_or};
ghost use Rattle.cool_faults.specs.Files.{bytes_of};
ghost use Rattle.cool_mend.specs.Ranges.{IsRange, IsRangeAt};

use cool_guess::{Lexeme, lexeme_length};
use cool_lexer::item_size;
use cool_syntax::Place;
use std::alloc::{AllocError, Global};

/// The range at a place in files. Returns `Err` only if memory runs out.
pub(crate) fn range_at(alloc: Global, files: &[Vec<u8>], place: Place) -> Result<Lexeme, AllocError>
    ensures { IfOk result (IsRangeAt (bytes_of files.now) place) }
{
    range_in(alloc, file_of(files, place.file), place.byte as usize)
}

/// The file of this number, or none of its bytes.
pub(crate) fn file_of(files: &[Vec<u8>], file: u32) -> &[u8]
    ensures { result.now ≡ get_or (bytes_of files.now) file [] }
{
    match files.get(file as usize) {
        Some(bytes) => bytes.as_slice(),
        None => b"",
    }
}

/// The range at a byte of a file. Returns `Err` only if memory runs out.
fn range_in(alloc: Global, bytes: &[u8], at: usize) -> Result<Lexeme, AllocError>
    ensures { IfOk result (IsRange bytes.now at) }
{
    if at >= bytes.len() {
        return Ok(Lexeme { start: at, end: at });
    }
    let rest = &bytes[at..];
    let size = match item_size(alloc, rest)? {
        Some(size) => size,
        None => lexeme_length(rest),
    };
    Ok(Lexeme {
        start: at,
        end: at + size,
    })
}
