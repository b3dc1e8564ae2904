//! Checking and copying the file names in the arguments: each has at most 4,096 bytes, and no byte 0.

ghost use Rattle.std.specs.Prelude.{◌≡◌, IfOk};
ghost use Rattle.clap.specs.Walk.{texts};
ghost use Rattle.cool_words.specs.Plans.{are_file_names, is_file_name, words_of};

use std::alloc::{AllocError, Global};

/// The most bytes of a file's name.
pub const MOST_NAME_BYTES: usize = 4_096;

/// Whether they are the names of files, one or more.
pub(crate) fn are_file_names(names: &[&str]) -> bool
    ensures { result ≡ are_file_names (texts names.now) }
{
    !names.is_empty() && names.iter().all(|name| is_file_name(name))
}

/// The names, each in memory of its own. Returns `Err` only if memory runs out.
pub(crate) fn copy_names(alloc: Global, names: &[&str]) -> Result<Vec<String>, AllocError>
    ensures { IfOk result (λ copies. words_of copies.items ≡ texts names.now) }
{
    let mut copies = Vec::new(alloc);
    for name in names {
        copies.push(String::from_str(alloc, name)?)?;
    }
    Ok(copies)
}

/// Whether it has at most 4,096 bytes, none of them 0.
pub(crate) fn is_file_name(name: &str) -> bool
    ensures { result ≡ is_file_name name.now }
{
    let bytes = name.as_bytes();
    bytes.len() <= MOST_NAME_BYTES && !bytes.contains(&0)
}
