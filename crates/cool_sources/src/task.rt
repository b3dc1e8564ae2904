//! The trait of a program's task: its answer on source files.

ghost use Rattle.std.specs.Prelude.{◌≡◌, ◌<◌, ◌≤◌, length, map, string_bytes, IfOk, true};
ghost use Rattle.cool_syntax.specs.declared.TheConstants.{MOST_FILES, MOST_SOURCE_BYTES};
ghost use Rattle.cool_faults.specs.Files.{bytes_of, total};
ghost use Rattle.cool_sources.specs.Notes.{AreNotes};
ghost use Rattle.cool_sources.specs.Tasks.{TaskSpec};

use crate::answer::Answer;
use crate::note::Notes;
use std::alloc::{AllocError, Global};

/// The task of a program on source files: its answer on their bytes.
pub trait Task {
    /// The name of its program, the names of files that it accepts, and its answers.
    ghost spec: { Self → TaskSpec };

    /// The notes of its program.
    fn notes(&self) -> Notes
        ensures { AreNotes (spec self.now).program result };

    /// Whether it accepts files of these names.
    fn accepts(&self, names: &[String]) -> bool
        ensures { result ≡ (spec self.now).accepts (map string_bytes names.now) };

    /// The answer on files of these names and bytes. Returns `Err` only if memory runs out.
    fn answer(
        &self,
        alloc: Global,
        names: &[String],
        contents: &[Vec<u8>],
    ) -> Result<Answer, AllocError>
        requires some { 0 < length names.now }
        requires each { length contents.now ≡ length names.now }
        requires accepted { (spec self.now).accepts (map string_bytes names.now) ≡ true }
        requires few { length contents.now ≤ MOST_FILES }
        requires small { total (bytes_of contents.now) ≤ MOST_SOURCE_BYTES }
        ensures { IfOk result ((spec self.now).is_answer (map string_bytes names.now) (bytes_of contents.now)) };
}
