//! Runs one call of `cool` with files, input and outputs that were not used before, and returns its status and their final states.

ghost use Rattle.std.specs.Prelude.{◌≡◌, ℕ, List, Some, []};
ghost use Rattle.cool_ports.specs.Answers.{Leaves, nothing_yet};
ghost use Rattle.cool_ports.specs.ShelfFiles.{AskedFront};
ghost use Rattle.cool_driver.specs.Calls.{call_of};
ghost use Rattle.cool_driver.specs.CommandLine.{words_of, asked_for, names_asked};
ghost use Rattle.cool_driver.specs.Ends.{Ends};
ghost use Rattle.cool_driver.specs.System.{RunsAsSource, shelf_since_made, sink_since_made};

use cool_driver::cool_over_system;
use cool_ports::{FileShelf, Shelf, Sink, Source, StdSink, StdSource};
use std::alloc::Global;
use std::io::{Read, Write};
use std::rt::Files;

/// A process at its end: its exit status, and what each part of the system was asked for, gave and took.
#[derive(Drop)]
pub struct Process<R, S, O, E> {
    pub status: u8,
    pub files: FileShelf<R>,
    pub input: StdSource<S>,
    pub out: StdSink<O>,
    pub notes: StdSink<E>,
}

/// Does what the words ask over a runtime that opens files, the reader of the input, and the writers of the output and of the notes.
pub fn perform<R: Files, S: Read + Drop, O: Write, E: Write>(
    alloc: Global,
    words: &[String],
    files: R,
    input: S,
    out: O,
    notes: E,
) -> Process<R, S, O, E>
    // The system is asked only for the files of the command line, in order, each once, up to one that is refused.
    ensures asked { AskedFront (names_asked (asked_for (words_of words.now))) [] (⟦<FileShelf<R> as Shelf>⟧.asked result.files) }

    // The end of each command, by its status: the writers took what is promised for the bytes that the files and the reader gave. At status 8 a writer may
    // also have taken a part of the write that failed.
    ensures ends { (given rest : List ℕ) → Leaves nothing_yet (⟦<StdSource<S> as Source>⟧.past result.input) given rest
        → Ends (call_of (words_of words.now)
        (shelf_since_made (⟦<FileShelf<R> as Shelf>⟧.faults result.files) (⟦<FileShelf<R> as Shelf>⟧.asked result.files) (⟦<FileShelf<R> as Shelf>⟧.gave result.files))
        given rest 0 (⟦<StdSource<S> as Source>⟧.faults result.input)
        (sink_since_made (⟦<StdSink<O> as Sink>⟧.held result.out) (⟦<StdSink<O> as Sink>⟧.faults result.out) (⟦<StdSink<O> as Sink>⟧.puts result.out))
        (sink_since_made (⟦<StdSink<E> as Sink>⟧.held result.notes) (⟦<StdSink<E> as Sink>⟧.faults result.notes) (⟦<StdSink<E> as Sink>⟧.puts result.notes))) result.status }

    // The consequence for a program that `run` runs to its end, or to a limit: the bytes that the output took are those of the rules of Cool.
    ensures ran { RunsAsSource (words_of words.now)
        (shelf_since_made (⟦<FileShelf<R> as Shelf>⟧.faults result.files) (⟦<FileShelf<R> as Shelf>⟧.asked result.files) (⟦<FileShelf<R> as Shelf>⟧.gave result.files))
        nothing_yet (⟦<StdSource<S> as Source>⟧.past result.input) (Some []) (⟦<StdSink<O> as Sink>⟧.held result.out) result.status }
{
    let mut files = FileShelf::new(files);
    let mut input = StdSource::new(input);
    let mut out = StdSink::new(out);
    let mut notes = StdSink::new(notes);
    let status = cool_over_system(alloc, words, &mut files, &mut input, &mut out, &mut notes);
    Process {
        status,
        files,
        input,
        out,
        notes,
    }
}
