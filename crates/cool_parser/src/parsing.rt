//! The function `parse`, which parses the tokens of a file.

ghost use Rattle.std.specs.Prelude.{◌≡◌, ℕ, ◌≤◌, ◌-◌, ◌+◌, ◌<◌, ◌^◌, List, [], length, IfOk, IfErr, MatchResult};
ghost use Rattle.std.specs.List.{AllByRecursion};
ghost use Rattle.cool_syntax.specs.declared.TheConstants.{MOST_SOURCE_BYTES};
ghost use Rattle.cool_syntax.specs.LexicalStructure.{first_run, FitsRuns};
ghost use Rattle.cool_syntax.specs.TokenFacts.{AreWithinLimits, weights};
ghost use Rattle.cool_parser.specs.declared.fault.ParseError.TheVariants.{Memory};
ghost use Rattle.cool_syntax.specs.declared.place.Place.{Place};
ghost use Rattle.cool_syntax.specs.declared.file_tree.ClassDef.{ClassDef};
ghost use Rattle.cool_syntax.specs.Grammar.{Parses, IsUnexpected};
ghost use Rattle.cool_syntax.specs.WrittenTrees.{AreClassesWritable};
ghost use Rattle.cool_parser.specs.Answers.{IsFault, IsFaultAt, IsOutcome};
ghost use Rattle.cool_parser.specs.ParsingMachine.{parsed, Whole};
ghost use Rattle.cool_syntax.specs.FeatureSizes.{IsBoundedClass};
ghost use Rattle.cool_syntax.specs.TreesWithinLimits.{AreClassesWithin};
ghost use Rattle.cool_syntax.specs.Weights.{classes_weight};

use crate::fault::{ParseError, ParseFault};
use crate::reading::Reading;
use cool_syntax::{ClassDef, FileTree, Listed, Place, Token};
use std::alloc::Global;

/// The tree of a file, by its tokens (Cool manual, section 11). `file` is its position in the command, from 0, and `end` the place of its end; there are at
/// most 1,048,576 tokens.
///
/// `Err(Fault(..))` comes if the tokens are no file: its place is that of the first token that may not stand where it does, or `end` if the file may not
/// end there. `Err(Memory)` comes only if memory runs out.
pub fn parse(alloc: Global, file: u32, tokens: &[Token], end: Place) -> Result<FileTree, ParseError>
    requires { length tokens.now ≤ MOST_SOURCE_BYTES }
    ensures file { IfOk result (λ tree. tree.file ≡ file) }
    // a tree comes exactly where the tokens are a file
    ensures whole { IfOk result (λ tree. Parses tokens.now tree.classes) }
    ensures only { (classes : List ClassDef) → Parses tokens.now classes → MatchResult result (λ tree. tree.classes ≡ classes) (λ error. error ≡ Memory) }
    // a fault comes exactly where it is the first one
    ensures fault { IfErr result (λ error. IsFault tokens.now end error) }
    ensures first { (at : Place) → IsUnexpected tokens.now end at → MatchResult result (λ tree. ⊥) (IsFaultAt at) }
    // the limits of the tokens that the tree keeps
    ensures limits { (files : ℕ) → AreWithinLimits files tokens.now → IfOk result (λ tree. AreClassesWithin files tree.classes) }
    ensures bounded { FitsRuns first_run tokens.now → IfOk result (λ tree. AllByRecursion IsBoundedClass tree.classes) }
    ensures weight { IfOk result (λ tree. classes_weight tree.classes ≤ weights tokens.now) }
    ensures writable { IfOk result (λ tree. AreClassesWritable tree.classes) }
    ensures empty { tokens.now ≡ [] → MatchResult result (λ tree. tree.classes ≡ []) (λ error. error ≡ Memory) }
{
    match classes_of(alloc, tokens, end) {
        Ok(classes) => Ok(FileTree { file, classes }),
        Err(error) => Err(error),
    }
}

/// The classes of a file, by its tokens: the result of the machine.
fn classes_of(alloc: Global, tokens: &[Token], end: Place) -> Result<Listed<ClassDef>, ParseError>
    requires { length tokens.now ≤ MOST_SOURCE_BYTES }
    ensures { MatchResult result (λ classes. parsed tokens.now end ≡ Whole classes) (IsOutcome (parsed tokens.now end)) }
{
    let mut reading = Reading::new(alloc);
    reading.read(tokens, end)?;
    Ok(reading.into_classes())
}
