//! The reasons why a command stops before its work, such as compile-time errors, and the functions that report them.

ghost use Rattle.std.specs.Prelude.{◌≡◌, ◌<◌, ◌∷◌, [], ℕ, List, length, IfOk, Some, map};
ghost use Rattle.std.specs.List.{AllByRecursion};
ghost use Rattle.cool_faults.specs.Texts.{fault_line};
ghost use Rattle.cool_faults.specs.Verdicts.{place_of};
ghost use Rattle.cool_words.specs.Plans.{words_of};
ghost use Rattle.cool_driver.specs.Calls.{ShelfUse, sink_use};
ghost use Rattle.cool_driver.specs.Contents.{texts};
ghost use Rattle.cool_driver.specs.Refusals.{AreFaultLines, AreLinesOf, HasLines, IsLine, PutsFaults, RefusalNoted};
ghost use Rattle.cool_driver.specs.Statuses.{REFUSED, code_of};
ghost use Rattle.cool_driver.specs.Telling.{PutsLines, fault_note};

use crate::notes::{file_note, tell_lines};
use crate::status::Status;
use cool_faults::{Fault, fault_text};
use cool_ports::{ShelfFault, Sink};
use std::alloc::{AllocError, AllocFailed, Global};

/// The reason why a command does not continue.
#[derive(Drop)]
pub enum Refusal {
    /// The reason is these lines. The call ends with this status.
    Told(Status, Vec<Vec<u8>>),
    /// Out of memory.
    Memory,
}

impl From<AllocError> for Refusal {
    ghost use Rattle.std.specs.Prelude.{◌≡◌};
    ghost use Rattle.cool_driver.specs.declared.refusal.Refusal.TheVariants as refusal;

    ghost from_gives = { λ _ e. e ≡ refusal.Memory };

    fn from(_error: AllocError) -> Refusal {
        Refusal::Memory
    }
}

impl<T: Drop> From<AllocFailed<T>> for Refusal {
    ghost use Rattle.std.specs.Prelude.{◌≡◌};
    ghost use Rattle.cool_driver.specs.declared.refusal.Refusal.TheVariants as refusal;

    ghost from_gives = { λ _ e. e ≡ refusal.Memory };

    fn from(_error: AllocFailed<T>) -> Refusal {
        Refusal::Memory
    }
}

/// A refusal with a note of one line.
pub fn refuse_by_line(alloc: Global, status: Status, line: &[u8]) -> Refusal
    ensures { IsLine status line.now result }
{
    match lines_of_one(alloc, line) {
        Ok(lines) => Refusal::Told(status, lines),
        Err(AllocError) => Refusal::Memory,
    }
}

/// This one line. Returns `Err` only if memory runs out.
fn lines_of_one(alloc: Global, line: &[u8]) -> Result<Vec<Vec<u8>>, AllocError>
    ensures { IfOk result (λ lines. texts lines.items ≡ line.now ∷ []) }
{
    let mut lines = Vec::new(alloc);
    lines.push(Vec::from_slice(alloc, line)?)?;
    Ok(lines)
}

/// The refusal for a file or a script of this name that the shelf refused.
pub fn refuse_unread(alloc: Global, name: &str, fault: ShelfFault) -> Refusal
    ensures { (note : List ℕ) → fault_note name.now fault ≡ Some note → IsLine Status.FileFault note result }
{
    match file_note(alloc, name, fault) {
        Ok(note) => refuse_by_line(alloc, Status::FileFault, &note),
        Err(AllocError) => Refusal::Memory,
    }
}

/// The refusal for the faults of files of these names.
pub fn refuse_for_faults(alloc: Global, names: &[String], faults: &[Fault]) -> Refusal
    requires { AllByRecursion (λ f. (place_of f).file < length names.now) faults.now }
    ensures { AreLinesOf (words_of names.now) faults.now result }
{
    match lines_of_faults(alloc, names, faults) {
        Ok(lines) => Refusal::Told(Status::Refused, lines),
        Err(AllocError) => Refusal::Memory,
    }
}

/// A line for each fault of files of these names. Returns `Err` only if memory runs out.
fn lines_of_faults(
    alloc: Global,
    names: &[String],
    faults: &[Fault],
) -> Result<Vec<Vec<u8>>, AllocError>
    requires { AllByRecursion (λ f. (place_of f).file < length names.now) faults.now }
    ensures { IfOk result (λ lines. texts lines.items ≡ map (fault_line (words_of names.now)) faults.now) }
{
    let mut lines = Vec::new(alloc);
    for fault in faults {
        lines.push(fault_text(alloc, names, fault)?)?;
    }
    Ok(lines)
}

/// Writes why the command goes no further, and answers the status of that, or that a write failed.
pub fn tell_refusal<E: Sink>(notes: &mut E, refusal: &Refusal) -> Status
    requires { HasLines refusal.now }
    ensures noted { RefusalNoted (sink_use E.Sink notes.old notes.new) refusal.now result }
    ensures lines { PutsLines (E.puts notes.old) (E.puts notes.new) }
    ensures put { (names : List (List ℕ)) (shelf : ShelfUse) → AreFaultLines names shelf refusal.now → code_of result ≡ REFUSED
        → PutsFaults names shelf (E.puts notes.old) (E.puts notes.new) }
{
    match refusal {
        Refusal::Told(status, lines) => tell_lines(notes, *status, lines),
        Refusal::Memory => Status::Memory,
    }
}
