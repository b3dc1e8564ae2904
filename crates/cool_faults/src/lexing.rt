//! `lex_files` lexes all source files and returns their tokens, or the first lexical error of each file that has one.

ghost use Rattle.std.specs.Prelude.{◌≡◌, ◌≤◌, [], length, MatchResult};
ghost use Rattle.cool_syntax.specs.declared.TheConstants.{MOST_FILES, MOST_SOURCE_BYTES};
ghost use Rattle.cool_faults.specs.Files.{bytes_of, total};
ghost use Rattle.cool_faults.specs.Phases.{Adds, AreFaultsFound, AreFound, IsLexed, IsLexical, IsMemory};

use crate::fault::{Fault, Refusal};
use crate::findings::Findings;
use cool_lexer::{LexError, Lexed, lex};
use std::alloc::Global;

/// The tokens of each file (the Cool manual, section 10). There are at most 64 files, and they have at most 1,048,576 bytes together.
///
/// `Err(Faults(..))` comes if a file has a lexical fault: it holds the first one of each such file, in the order of files. `Err(Memory)` comes only if
/// memory runs out.
pub fn lex_files(alloc: Global, files: &[Vec<u8>]) -> Result<Vec<Lexed>, Refusal>
    requires few { length files.now ≤ MOST_FILES }
    requires small { total (bytes_of files.now) ≤ MOST_SOURCE_BYTES }
    ensures { MatchResult result (λ all. AreFound IsLexed IsLexical 0 (bytes_of files.now) all.items []) (AreFaultsFound IsLexed IsLexical (bytes_of files.now)) }
{
    let mut found = Findings::new(alloc);
    for (index, file) in files.iter().enumerate() {
        lex_file(alloc, index as u32, file.as_slice(), &mut found)?;
    }
    found.outcome()
}

/// Adds the tokens of the file of this number, or its first fault. Returns `Err` only if memory runs out.
fn lex_file(
    alloc: Global,
    file: u32,
    bytes: &[u8],
    found: &mut Findings<Lexed>,
) -> Result<(), Refusal>
    requires { length bytes.now ≤ MOST_SOURCE_BYTES }
    ensures { MatchResult result (λ _. Adds (IsLexed file bytes.now) (IsLexical file bytes.now) found.old found.new) IsMemory }
{
    match lex(alloc, file, bytes) {
        Ok(lexed) => Ok(found.results.push(lexed)?),
        Err(LexError::Fault(fault)) => Ok(found.faults.push(Fault::Lex(fault))?),
        Err(LexError::Memory) => Err(Refusal::Memory),
    }
}
