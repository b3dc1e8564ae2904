//! Looks up files by name, and counts their bytes.

ghost use Rattle.std.specs.Prelude.{◌≡◌, ◌≤◌, ◌<◌, length, replicate, unwrap_or, IfSome, IfOk, IfErr, OnOk, Ok, Err};
ghost use Rattle.cool_syntax.specs.declared.TheConstants.{MOST_FILES, MOST_SOURCE_BYTES};
ghost use Rattle.cool_faults.specs.Files.{bytes_of, total};
ghost use Rattle.cool_session.specs.Files.{length_at, names_of, position, set_room};

use crate::error::SetError;
use cool_syntax::{MOST_FILES, MOST_SOURCE_BYTES};

/// The first position of a name among names.
pub(crate) fn position(names: &[String], name: &str) -> Option<usize>
    ensures first { result ≡ position (names_of names.now) name.now }
    ensures within { IfSome result (λ k. k < length names.now) }
{
    for k in 0..names.len() {
        if names[k].as_str() == name {
            return Some(k);
        }
    }
    None
}

/// The position of a name, where there is room for its file with these bytes.
///
/// Returns `Err(TooMany)` exactly if more than 64 files would be held, and `Err(TooLarge)` where not and more than 1,048,576 bytes would.
pub(crate) fn position_to_set(
    names: &[String],
    files: &[Vec<u8>],
    name: &str,
    bytes: &[u8],
) -> Result<Option<usize>, SetError>
    requires paired { length names.now ≡ length files.now }
    requires few { length names.now ≤ MOST_FILES }
    requires small { total (bytes_of files.now) ≤ MOST_SOURCE_BYTES }
    ensures place { IfOk result (λ place. place ≡ position (names_of names.now) name.now) }
    ensures within { IfOk result (λ place. IfSome place (λ k. k < length files.now)) }
    ensures fits { OnOk result (set_room (names_of names.now) (bytes_of files.now) name.now bytes.now ≡ Ok tt) }
    ensures refused { IfErr result (λ e. set_room (names_of names.now) (bytes_of files.now) name.now bytes.now ≡ Err e) }
{
    place_for(names, files, name, bytes.len() as u64)
}

/// The position of a name, where there is room for its file with so many bytes, whichever they are.
///
/// Returns `Err(TooMany)` exactly if more than 64 files would be held, and `Err(TooLarge)` where not and more than 1,048,576 bytes would.
pub(crate) fn place_for(
    names: &[String],
    files: &[Vec<u8>],
    name: &str,
    size: u64,
) -> Result<Option<usize>, SetError>
    requires paired { length names.now ≡ length files.now }
    requires few { length names.now ≤ MOST_FILES }
    requires small { total (bytes_of files.now) ≤ MOST_SOURCE_BYTES }
    ensures place { IfOk result (λ place. place ≡ position (names_of names.now) name.now) }
    ensures within { IfOk result (λ place. IfSome place (λ k. k < length files.now)) }
    ensures fits { OnOk result (set_room (names_of names.now) (bytes_of files.now) name.now (replicate size 0) ≡ Ok tt) }
    ensures refused { IfErr result (λ e. set_room (names_of names.now) (bytes_of files.now) name.now (replicate size 0) ≡ Err e) }
{
    let place = position(names, name);
    if place.is_none() && names.len() == MOST_FILES {
        return Err(SetError::TooMany);
    }
    let others = total(files) - length_at(files, place) as u64;
    if size > MOST_SOURCE_BYTES - others {
        return Err(SetError::TooLarge);
    }
    Ok(place)
}

/// The number of bytes in the file at a position, and 0 if there is no position.
pub(crate) fn length_at(files: &[Vec<u8>], place: Option<usize>) -> usize
    requires { IfSome place (λ k. k < length files.now) }
    ensures { result ≡ unwrap_or (length_at (bytes_of files.now) place) 0 }
{
    match place {
        Some(k) => files[k].len(),
        None => 0,
    }
}

/// The total number of bytes in files. It is at most 1,048,576.
pub(crate) fn total(files: &[Vec<u8>]) -> u64
    requires { total (bytes_of files.now) ≤ MOST_SOURCE_BYTES }
    ensures { result ≡ total (bytes_of files.now) }
{
    let mut sum = 0;
    for k in 0..files.len() {
        sum += files[k].len() as u64;
    }
    sum
}
