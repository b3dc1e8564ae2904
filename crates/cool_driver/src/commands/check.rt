//! The command `check`: checks source files and writes their compile-time errors, if there are any.

ghost use Rattle.std.specs.Prelude.{◌≡◌, ◌<◌, length, true};
ghost use Rattle.std.specs.List.{list_all};
ghost use Rattle.cool_words.specs.Plans.{is_file_name, words_of};
ghost use Rattle.cool_driver.specs.Does.{Does};
ghost use Rattle.cool_driver.specs.Outside.{SourceState, SinkState, outside, shelf_at, sink_at};
ghost use Rattle.cool_driver.specs.Statuses.{code_of};
ghost use Rattle.cool_driver.specs.commands.Check.{checking};

use crate::refusal::tell_refusal;
use crate::sources::read_program;
use crate::status::Status;
use cool_ports::{Shelf, Sink};
use std::alloc::Global;

/// Writes the faults of the files of these names, if they have any.
pub fn check_files<F: Shelf, E: Sink>(
    alloc: Global,
    names: &[String],
    files: &mut F,
    notes: &mut E,
) -> Status
    requires some { 0 < length names.now }
    requires names { list_all is_file_name (words_of names.now) ≡ true }
    ensures { (input : SourceState) (out : SinkState)
        → Does (checking (words_of names.now)) (outside (shelf_at F.Shelf files.old) input out (sink_at E.Sink notes.old))
        (outside (shelf_at F.Shelf files.new) input out (sink_at E.Sink notes.new)) (code_of result) }
{
    match read_program(alloc, names, files) {
        Ok(_) => Status::Done,
        Err(refusal) => tell_refusal(notes, &refusal),
    }
}
