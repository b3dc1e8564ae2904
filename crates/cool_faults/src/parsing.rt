//! `parse_files` parses the tokens of all files and returns their syntax trees, or the syntax error of each file that has one.

ghost use Rattle.std.specs.Prelude.{◌≡◌, ◌≤◌, [], length, MatchResult};
ghost use Rattle.std.specs.List.{AllByRecursion};
ghost use Rattle.cool_syntax.specs.declared.TheConstants.{MOST_FILES, MOST_SOURCE_BYTES};
ghost use Rattle.cool_faults.specs.Phases.{Adds, AreFaultsFound, AreFound, IsMemory, IsParsed, IsSyntactic};

use crate::fault::{Fault, Refusal};
use crate::findings::Findings;
use cool_lexer::Lexed;
use cool_parser::{ParseError, parse};
use cool_syntax::FileTree;
use std::alloc::Global;

/// The tree of each file, by its tokens.
///
/// `Err(Faults(..))` comes if the tokens of a file are no tree: it holds the fault of each such file, in the order of files. `Err(Memory)` comes only if
/// memory runs out.
pub(crate) fn parse_files(alloc: Global, files: &[Lexed]) -> Result<Vec<FileTree>, Refusal>
    requires few { length files.now ≤ MOST_FILES }
    requires small { AllByRecursion (λ file. length file.tokens.items ≤ MOST_SOURCE_BYTES) files.now }
    ensures { MatchResult result (λ all. AreFound IsParsed IsSyntactic 0 files.now all.items []) (AreFaultsFound IsParsed IsSyntactic files.now) }
{
    let mut found = Findings::new(alloc);
    for (index, file) in files.iter().enumerate() {
        parse_file(alloc, index as u32, file, &mut found)?;
    }
    found.outcome()
}

/// Adds the tree of the file of this number, or its fault. Returns `Err` only if memory runs out.
fn parse_file(
    alloc: Global,
    file: u32,
    lexed: &Lexed,
    found: &mut Findings<FileTree>,
) -> Result<(), Refusal>
    requires { length lexed.now.tokens.items ≤ MOST_SOURCE_BYTES }
    ensures { MatchResult result (λ _. Adds (IsParsed file lexed.now) (IsSyntactic file lexed.now) found.old found.new) IsMemory }
{
    match parse(alloc, file, lexed.tokens.as_slice(), lexed.end) {
        Ok(tree) => Ok(found.results.push(tree)?),
        Err(ParseError::Fault(fault)) => Ok(found.faults.push(Fault::Syntax(fault))?),
        Err(ParseError::Memory) => Err(Refusal::Memory),
    }
}
