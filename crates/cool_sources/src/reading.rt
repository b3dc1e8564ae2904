//! Reads the source files of a call by their names, up to a limit of bytes.

ghost use Rattle.std.specs.Prelude.{◌≡◌, ◌≤◌, ◌<◌, ◌^◌, length, map, string_bytes, IfOk, IfErr, OnOk, OnErr};
ghost use Rattle.std.specs.List.{AllByRecursion};
ghost use Rattle.cool_faults.specs.Files.{bytes_of, total};
ghost use Rattle.cool_sources.specs.Devices.{shelf_use, AreRead};
ghost use Rattle.cool_sources.specs.Reading.{IsStop};
ghost use Rattle.cool_ports.specs.ShelfFiles.{AskedFront};
ghost use Rattle.lists.specs.Bytes.{AreBytes};

use cool_ports::{Shelf, ShelfFault};
use std::alloc::{AllocError, AllocFailed, Global};

/// Why not all files were read.
#[derive(Clone, Copy)]
pub enum ReadError<'a> {
    /// Out of memory.
    Memory,
    /// The shelf refused the file of this name.
    Refused(&'a str, ShelfFault),
}

impl<'a> From<AllocError> for ReadError<'a> {
    ghost use Rattle.std.specs.Prelude.{◌≡◌};
    ghost use Rattle.cool_sources.specs.declared.reading.ReadError.TheVariants as error;

    ghost from_gives = { λ _ e. e ≡ error.Memory };

    fn from(_error: AllocError) -> ReadError<'a> {
        ReadError::Memory
    }
}

impl<'a, T: Drop> From<AllocFailed<T>> for ReadError<'a> {
    ghost use Rattle.std.specs.Prelude.{◌≡◌};
    ghost use Rattle.cool_sources.specs.declared.reading.ReadError.TheVariants as error;

    ghost from_gives = { λ _ e. e ≡ error.Memory };

    fn from(_error: AllocFailed<T>) -> ReadError<'a> {
        ReadError::Memory
    }
}

/// The bytes of the files of these names, in order; they have at most so many together.
pub fn read_files<'a, F: Shelf>(
    alloc: Global,
    names: &'a [String],
    most: u64,
    files: &mut F,
) -> Result<Vec<Vec<u8>>, ReadError<'a>>
    requires { most < 2 ^ 40 }
    ensures read { IfOk result (λ contents.
        AreRead (shelf_use F.files F.faults F.asked F.gave files.old files.new) (map string_bytes names.now) (bytes_of contents.items)) }
    ensures bytes { IfOk result (λ contents. AllByRecursion AreBytes (bytes_of contents.items)) }
    ensures within { IfOk result (λ contents. total (bytes_of contents.items) ≤ most) }
    ensures each { IfOk result (λ contents. length contents.items ≡ length names.now) }
    ensures calm { OnOk result (F.faults files.new ≡ F.faults files.old) }
    ensures stop { IfErr result (IsStop (shelf_use F.files F.faults F.asked F.gave files.old files.new) (map string_bytes names.now) most) }
    ensures kept { F.files files.new ≡ F.files files.old }
    ensures no_less { F.faults files.old ≤ F.faults files.new }
    ensures asked { OnErr result (AskedFront (map string_bytes names.now) (F.asked files.old) (F.asked files.new)) }
{
    let mut contents = Vec::new(alloc);
    let mut left = most;
    for index in 0..names.len() {
        let name = names[index].as_str();
        match files.read(alloc, name, left) {
            Ok(bytes) => {
                left -= byte_count(&bytes);
                contents.push(bytes)?;
            }
            Err(fault) => match fault {
                ShelfFault::Memory => return Err(ReadError::Memory),
                _ => return Err(ReadError::Refused(name, fault)),
            },
        }
    }
    Ok(contents)
}

/// The number of bytes, each of them below 256.
pub fn byte_count(bytes: &[u8]) -> u64
    ensures count { result ≡ length bytes.now }
    ensures bytes { AreBytes bytes.now }
{
    bytes.len() as u64
}
