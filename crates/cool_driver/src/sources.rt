//! Reads the source files of a command and checks them: the result is an accepted program, or the reason why there is none.

ghost use Rattle.std.specs.Prelude.{◌≡◌, ◌<◌, ◌≤◌, ◌^◌, ◌++◌, length, IfErr, IfOk, OnOk, true};
ghost use Rattle.cool_ports.specs.ShelfFiles.{AskedFront};
ghost use Rattle.std.specs.List.{list_all, AllByRecursion};
ghost use Rattle.cool_faults.specs.Verdicts.{IsAccepted};
ghost use Rattle.lists.specs.Bytes.{AreBytes};
ghost use Rattle.cool_syntax.specs.declared.TheConstants.{MOST_SOURCE_BYTES};
ghost use Rattle.cool_words.specs.Plans.{is_file_name, words_of};
ghost use Rattle.cool_driver.specs.Calls.{ShelfUse, shelf_use};
ghost use Rattle.cool_driver.specs.Contents.{texts};
ghost use Rattle.cool_driver.specs.Refusals.{AreFaultLines, IsDueToFaults, IsTold};
ghost use Rattle.cool_driver.specs.Sources.{AreRead, GrewBy, IsDueUnread, IsNoProgram, IsProgram, AreSources, unless_too_many};

use crate::notes::TOO_MANY_FILES;
use crate::refusal::{Refusal, refuse_by_line, refuse_for_faults, refuse_unread};
use crate::status::Status;
use cool_faults::{Verdict, accept};
use cool_ports::Shelf;
use cool_rules::TypedProgram;
use cool_sources::{ReadError, read_files};
use cool_syntax::{MOST_FILES, MOST_SOURCE_BYTES};
use std::alloc::Global;

/// The program that the files of these names are, or why they are none.
pub fn read_program<F: Shelf>(
    alloc: Global,
    names: &[String],
    files: &mut F,
) -> Result<TypedProgram, Refusal>
    requires some { 0 < length names.now }
    requires names { list_all is_file_name (words_of names.now) ≡ true }
    ensures kept { F.files files.new ≡ F.files files.old }
    ensures asked { AskedFront (unless_too_many (words_of names.now) (words_of names.now)) (F.asked files.old) (F.asked files.new) }
    ensures count { F.faults files.old ≤ F.faults files.new }
    ensures grew { OnOk result (GrewBy (length (words_of names.now)) (F.gave files.old) (F.gave files.new)) }
    ensures program { IfOk result (IsProgram (shelf_use F.Shelf files.old files.new) (words_of names.now)) }
    ensures refused { IfErr result (IsTold (IsNoProgram (shelf_use F.Shelf files.old files.new) (words_of names.now))) }
    ensures lined { IfErr result (AreFaultLines (words_of names.now) (shelf_use F.Shelf files.old files.new)) }
{
    match read_sources(alloc, names, MOST_SOURCE_BYTES, files) {
        Ok(contents) => accept_sources(alloc, names, &contents),
        Err(refusal) => Err(refusal),
    }
}

/// The bytes of the files of these names, in order, at most so many together, or why they were not read.
pub fn read_sources<F: Shelf>(
    alloc: Global,
    names: &[String],
    most: u64,
    files: &mut F,
) -> Result<Vec<Vec<u8>>, Refusal>
    requires { most < 2 ^ 40 }
    ensures kept { F.files files.new ≡ F.files files.old }
    ensures asked { AskedFront (unless_too_many (words_of names.now) (words_of names.now)) (F.asked files.old) (F.asked files.new) }
    ensures count { F.faults files.old ≤ F.faults files.new }
    ensures read { IfOk result (λ contents. AreRead (shelf_use F.Shelf files.old files.new) most (words_of names.now) (texts contents.items)) }
    ensures gave { IfOk result (λ contents. F.gave files.new ≡ F.gave files.old ++ texts contents.items) }
    ensures bytes { IfOk result (λ contents. AllByRecursion AreBytes (texts contents.items)) }
    ensures refused { IfErr result (IsTold (IsDueUnread (shelf_use F.Shelf files.old files.new) most (words_of names.now))) }
{
    if names.len() > MOST_FILES {
        return Err(refuse_by_line(alloc, Status::FileFault, TOO_MANY_FILES));
    }
    match read_files(alloc, names, most, files) {
        Ok(contents) => Ok(contents),
        Err(ReadError::Refused(name, fault)) => Err(refuse_unread(alloc, name, fault)),
        Err(ReadError::Memory) => Err(Refusal::Memory),
    }
}

/// The program that files of these names and bytes are, or the lines of their faults.
fn accept_sources(
    alloc: Global,
    names: &[String],
    contents: &[Vec<u8>],
) -> Result<TypedProgram, Refusal>
    requires sources { AreSources names.now contents.now }
    ensures program { IfOk result (IsAccepted (texts contents.now)) }
    ensures refused { IfErr result (IsTold (IsDueToFaults (words_of names.now) (texts contents.now))) }
    ensures lined { (shelf : ShelfUse) → AreRead shelf MOST_SOURCE_BYTES (words_of names.now) (texts contents.now)
        → IfErr result (AreFaultLines (words_of names.now) shelf) }
{
    match accept(alloc, contents)? {
        Verdict::Accepted(program) => Ok(program),
        Verdict::Refused(faults) => Err(refuse_for_faults(alloc, names, faults.as_slice())),
    }
}
