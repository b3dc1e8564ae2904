//! `class_phase` lexes and parses files and builds their class table, or returns the errors of the first of these phases that finds any.

ghost use Rattle.std.specs.Prelude.{◌≤◌, IfOk, MatchResult, length};
ghost use Rattle.cool_syntax.specs.declared.TheConstants.{MOST_FILES, MOST_SOURCE_BYTES};
ghost use Rattle.cool_faults.specs.Files.{bytes_of, total};
ghost use Rattle.cool_faults.specs.Untyped.{IsClassVerdict, IsEarlyRefusal, IsUntyped};

use crate::classes::class_table;
use crate::fault::{ClassVerdict, Refusal, Untyped};
use crate::lexing::lex_files;
use crate::parsing::parse_files;
use std::alloc::{AllocError, Global};

/// The tokens of files and the table of their classes. There are at most 64, and they have at most 1,048,576 bytes together.
///
/// They are refused exactly if a phase before typing finds a fault, with the faults of the first that does. Returns `Err` only if memory runs out.
pub fn class_phase(alloc: Global, files: &[Vec<u8>]) -> Result<ClassVerdict, AllocError>
    requires few { length files.now ≤ MOST_FILES }
    requires small { total (bytes_of files.now) ≤ MOST_SOURCE_BYTES }
    ensures verdict { IfOk result (IsClassVerdict (bytes_of files.now)) }
{
    match untyped(alloc, files) {
        Ok(untyped) => Ok(ClassVerdict::Untyped(untyped)),
        Err(Refusal::Faults(faults)) => Ok(ClassVerdict::Refused(faults)),
        Err(Refusal::Memory) => Err(AllocError),
    }
}

/// The tokens of files and the table of their classes.
///
/// `Err(Faults(..))` comes if a phase before typing finds a fault, and holds the faults of the first that does. `Err(Memory)` comes only if memory runs
/// out.
pub(crate) fn untyped(alloc: Global, files: &[Vec<u8>]) -> Result<Untyped, Refusal>
    requires few { length files.now ≤ MOST_FILES }
    requires small { total (bytes_of files.now) ≤ MOST_SOURCE_BYTES }
    ensures { MatchResult result (IsUntyped (bytes_of files.now)) (IsEarlyRefusal (bytes_of files.now)) }
{
    let lexed = lex_files(alloc, files)?;
    let trees = parse_files(alloc, lexed.as_slice())?;
    let classes = class_table(alloc, trees)?;
    Ok(Untyped { lexed, classes })
}
