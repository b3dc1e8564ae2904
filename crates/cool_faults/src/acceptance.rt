//! `accept` decides whether source files are a valid Cool program, and returns the program or its compile-time errors.

ghost use Rattle.std.specs.Prelude.{◌≤◌, IfOk, MatchResult, length};
ghost use Rattle.cool_syntax.specs.declared.TheConstants.{MOST_FILES, MOST_SOURCE_BYTES};
ghost use Rattle.cool_faults.specs.Files.{bytes_of, total};
ghost use Rattle.cool_faults.specs.Phases.{IsRefusedWith};
ghost use Rattle.cool_faults.specs.Verdicts.{IsAccepted, IsVerdict};

use crate::fault::{Refusal, Verdict};
use crate::typing::typed_program;
use crate::untyped_files::untyped;
use cool_rules::TypedProgram;
use std::alloc::{AllocError, Global};

/// Whether files are a program, by the Cool manual and the limits of this compiler. There are at most 64, and they have at most 1,048,576 bytes together.
///
/// The faults are those of the first phase that finds any, in the order of files, bytes and kinds: the first of each file from the lexer or the parser, all
/// of classes and then of features, the first of each feature from typing. Returns `Err` only if memory runs out.
pub fn accept(alloc: Global, files: &[Vec<u8>]) -> Result<Verdict, AllocError>
    requires few { length files.now ≤ MOST_FILES }
    requires small { total (bytes_of files.now) ≤ MOST_SOURCE_BYTES }
    ensures verdict { IfOk result (IsVerdict (bytes_of files.now)) }
{
    match program(alloc, files) {
        Ok(program) => Ok(Verdict::Accepted(program)),
        Err(Refusal::Faults(faults)) => Ok(Verdict::Refused(faults)),
        Err(Refusal::Memory) => Err(AllocError),
    }
}

/// The program of the files.
///
/// `Err(Faults(..))` comes if they are no program, and holds the faults of the first phase that finds any. `Err(Memory)` comes only if memory runs out.
fn program(alloc: Global, files: &[Vec<u8>]) -> Result<TypedProgram, Refusal>
    requires few { length files.now ≤ MOST_FILES }
    requires small { total (bytes_of files.now) ≤ MOST_SOURCE_BYTES }
    ensures { MatchResult result (IsAccepted (bytes_of files.now)) (IsRefusedWith (bytes_of files.now)) }
{
    let untyped = untyped(alloc, files)?;
    typed_program(alloc, untyped.classes)
}
