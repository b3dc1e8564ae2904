//! Calls `cool` with the files of the operating system and with streams of the standard library.

ghost use Rattle.std.specs.Prelude.{ℕ, List};
ghost use Rattle.cool_ports.specs.Answers.{Leaves};
ghost use Rattle.cool_ports.specs.ShelfFiles.{AskedFront};
ghost use Rattle.cool_driver.specs.Calls.{call_of, shelf_use, sink_use};
ghost use Rattle.cool_driver.specs.CommandLine.{words_of, asked_for, names_asked};
ghost use Rattle.cool_driver.specs.Ends.{Ends};
ghost use Rattle.cool_driver.specs.System.{RunsAsSource};

use crate::cool;
use cool_ports::{FileShelf, Shelf, Sink, Source, StdSink, StdSource};
use std::alloc::Global;
use std::io::{Read, Write};
use std::rt::Files;

/// Does what the words ask, as `cool` does, over the files of a runtime, and over readers and writers of std.
pub fn cool_over_system<R: Files, S: Read + Drop, O: Write, E: Write>(
    alloc: Global,
    words: &[String],
    files: &mut FileShelf<R>,
    input: &mut StdSource<S>,
    out: &mut StdSink<O>,
    notes: &mut StdSink<E>,
) -> u8
    // It asks only for the files of the command line, in order, each once, up to one that is refused.
    ensures asked { AskedFront (names_asked (asked_for (words_of words.now))) (⟦<FileShelf<R> as Shelf>⟧.asked files.old) (⟦<FileShelf<R> as Shelf>⟧.asked files.new) }

    // The end of each command, by its status, as `ends` of `cool` says, given what the files gave, what the reader gave and what the writers took.
    ensures ends { (given rest : List ℕ) → Leaves (⟦<StdSource<S> as Source>⟧.past input.old) (⟦<StdSource<S> as Source>⟧.past input.new) given rest
        → Ends (call_of (words_of words.now)
        (shelf_use ⟦<FileShelf<R> as Shelf>⟧ files.old files.new)
        given rest (⟦<StdSource<S> as Source>⟧.faults input.old) (⟦<StdSource<S> as Source>⟧.faults input.new)
        (sink_use ⟦<StdSink<O> as Sink>⟧ out.old out.new)
        (sink_use ⟦<StdSink<E> as Sink>⟧ notes.old notes.new)) result }

    // The consequence for a program that `run` runs to its end, or to a limit.
    ensures ran { RunsAsSource (words_of words.now)
        (shelf_use ⟦<FileShelf<R> as Shelf>⟧ files.old files.new)
        (⟦<StdSource<S> as Source>⟧.past input.old) (⟦<StdSource<S> as Source>⟧.past input.new)
        (⟦<StdSink<O> as Sink>⟧.held out.old) (⟦<StdSink<O> as Sink>⟧.held out.new) result }
{
    cool(alloc, words, files, input, out, notes)
}
