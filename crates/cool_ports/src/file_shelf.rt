//! `FileShelf` implements the trait `Shelf` (a file system from which files are read by name) with the files of the operating system.

ghost use Rattle.std.specs.Prelude.{◌≡◌, ◌<◌, ◌≤◌, ◌^◌, [], IfOk, None, vec_len};

use crate::{Log, Shelf, ShelfFault};
use std::alloc::Global;
use std::fs::File;
use std::io;
use std::io::{ErrorKind, Read};
use std::rt::Files;

/// A shelf over the files of the system. It tells nothing of their contents except the bytes that it gave, and counts each `Err` as a fault.
#[derive(Drop)]
pub struct FileShelf<R> {
    files: R,
    faults: u64,
    asked: Log,
    gave: Log,
}

impl<R: Files> FileShelf<R> {
    /// A shelf over the files that this runtime opens.
    pub fn new(files: R) -> FileShelf<R>
        ensures faults { ⟦<FileShelf<R> as Shelf>⟧.faults result ≡ 0 }
        ensures asked { ⟦<FileShelf<R> as Shelf>⟧.asked result ≡ [] }
        ensures gave { ⟦<FileShelf<R> as Shelf>⟧.gave result ≡ [] }
    {
        FileShelf {
            files,
            faults: 0,
            asked: Log::new(),
            gave: Log::new(),
        }
    }
}

impl<R: Files> Shelf for FileShelf<R> {
    ghost faults = { λ shelf. shelf.faults };

    ghost files = { λ _. None };

    ghost asked = { λ shelf. shelf.asked.entries };

    ghost gave = { λ shelf. shelf.gave.entries };

    fn read(&mut self, alloc: Global, name: &str, most: u64) -> Result<Vec<u8>, ShelfFault> {
        let faults = self.faults;
        self.asked = self.asked.with(name.as_bytes());
        match read_file(&self.files, alloc, name, most) {
            Ok(bytes) => {
                self.gave = self.gave.with(&bytes);
                Ok(bytes)
            }
            Err(fault) => {
                self.faults = faults.saturating_add(1);
                Err(fault)
            }
        }
    }
}

/// All bytes of a file; no more than `most + 1` are taken.
fn read_file<R: Files>(
    files: &R,
    alloc: Global,
    name: &str,
    most: u64,
) -> Result<Vec<u8>, ShelfFault>
    requires { most < 2 ^ 40 }
    ensures within { IfOk result (λ bytes. vec_len bytes ≤ most) }
{
    let file = File::open(files, name).map_err(|e| fault_of(&e))?;
    let mut bytes = Vec::new(alloc);
    file.take(most + 1)
        .read_to_end(&mut bytes)
        .map_err(|e| fault_of(&e))?;
    if bytes.len() as u64 > most {
        return Err(ShelfFault::TooLarge);
    }
    Ok(bytes)
}

fn fault_of(error: &io::Error) -> ShelfFault {
    match error.kind() {
        ErrorKind::NotFound => ShelfFault::Missing,
        ErrorKind::OutOfMemory => ShelfFault::Memory,
        _ => ShelfFault::Failed,
    }
}
