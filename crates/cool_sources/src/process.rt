//! Performs a task on source files of the operating system, with standard output and standard error.

ghost use Rattle.std.specs.Prelude.{[], map, string_bytes};
ghost use Rattle.cool_ports.specs.ShelfFiles.{AskedFront};
ghost use Rattle.cool_sources.specs.Ends.{HasEnded, fresh_shelf, fresh_sink};

use crate::call::perform_task;
use crate::status::Status;
use crate::task::Task;
use cool_ports::{FileShelf, Shelf, Sink, StdSink};
use std::alloc::Global;
use std::io::Write;
use std::rt::Files;

/// The end of a call over the system, with the bytes that its files gave, and those that its output and its notes took.
#[derive(Drop)]
pub struct Process<R, O, E> {
    /// The status that it ended with.
    pub status: Status,
    /// The files, with what was asked for and given.
    pub files: FileShelf<R>,
    /// The output, with what it took.
    pub out: StdSink<O>,
    /// The notes, with what they took.
    pub notes: StdSink<E>,
}

/// Performs a task on the files of these names, as `perform_task` does: the files are those that a runtime opens, and writers of std take the output and
/// the notes.
pub fn perform_over_system<T: Task, R: Files, O: Write, E: Write>(
    alloc: Global,
    task: &T,
    names: &[String],
    files: R,
    out: O,
    notes: E,
) -> Process<R, O, E>
    // The outcome that is due is written, or a write of it fails.
    ensures ended { HasEnded (T.spec task.now)
        (fresh_shelf (⟦<FileShelf<R> as Shelf>⟧.faults result.files) (⟦<FileShelf<R> as Shelf>⟧.asked result.files)
        (⟦<FileShelf<R> as Shelf>⟧.gave result.files))
        (map string_bytes names.now)
        (fresh_sink (⟦<StdSink<O> as Sink>⟧.held result.out) (⟦<StdSink<O> as Sink>⟧.faults result.out) (⟦<StdSink<O> as Sink>⟧.puts result.out))
        (fresh_sink (⟦<StdSink<E> as Sink>⟧.held result.notes) (⟦<StdSink<E> as Sink>⟧.faults result.notes) (⟦<StdSink<E> as Sink>⟧.puts result.notes))
        result.status }
    // The files of these names only are asked for, from the first on, in order, each once.
    ensures asked { AskedFront (map string_bytes names.now) [] (⟦<FileShelf<R> as Shelf>⟧.asked result.files) }
{
    let mut files = FileShelf::new(files);
    let mut out = StdSink::new(out);
    let mut notes = StdSink::new(notes);
    let status = perform_task(alloc, task, names, &mut files, &mut out, &mut notes);
    Process {
        status,
        files,
        out,
        notes,
    }
}
