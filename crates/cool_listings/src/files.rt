//! `file_marks` lists the marks of files: the occurrences of names, each with the definition that it refers to.

ghost use Rattle.std.specs.Prelude.{◌≡◌, ◌≤◌, IfOk, List, length};
ghost use Rattle.std.specs.List.{AllByRecursion};
ghost use Rattle.cool_syntax.specs.declared.TheConstants.{MOST_FILES, MOST_SOURCE_BYTES};
ghost use Rattle.cool_syntax.specs.declared.file_tree.FileTree as tree;
ghost use Rattle.cool_classes.specs.Definitions.{definitions};
ghost use Rattle.cool_faults.specs.Files.{bytes_of, total};
ghost use Rattle.cool_listings.specs.Ends.{AreTrees, IsAnswer};

use cool_faults::{ClassVerdict, class_phase};
use cool_lexer::Lexed;
use cool_names::{Mark, program_marks};
use cool_parser::parse;
use cool_syntax::ClassDef;
use std::alloc::{AllocError, Global};

/// The marks of files, or none where they are no class table. Returns `Err` only if memory runs out.
pub fn file_marks(alloc: Global, files: &[Vec<u8>]) -> Result<Option<Vec<Mark>>, AllocError>
    requires few { length files.now ≤ MOST_FILES }
    requires small { total (bytes_of files.now) ≤ MOST_SOURCE_BYTES }
    ensures { IfOk result (IsAnswer (bytes_of files.now)) }
{
    match class_phase(alloc, files)? {
        ClassVerdict::Untyped(untyped) => {
            let all = definitions_of(alloc, untyped.lexed.as_slice())?;
            Ok(Some(program_marks(alloc, &untyped.classes, all.as_slice())?))
        }
        ClassVerdict::Refused(_) => Ok(None),
    }
}

/// The definitions of the classes of files, by their tokens, which are trees. Returns `Err` only if memory runs out.
fn definitions_of(alloc: Global, files: &[Lexed]) -> Result<Vec<ClassDef>, AllocError>
    requires { AllByRecursion (λ file. length file.tokens.items ≤ MOST_SOURCE_BYTES) files.now }
    ensures { (trees : List tree.FileTree) → AreTrees files.now trees → IfOk result (λ all. all.items ≡ definitions trees) }
{
    let mut all = Vec::new(alloc);
    for file in files {
        match parse(alloc, 0, file.tokens.as_slice(), file.end) {
            Ok(tree) => all.append(&mut tree.classes.into_vec())?,
            Err(_) => return Err(AllocError),
        }
    }
    Ok(all)
}
