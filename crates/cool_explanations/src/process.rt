//! `perform` explains the files that command-line arguments name, with the files of a runtime and the writers of the standard library.

ghost use Rattle.std.specs.Prelude.{[]};
ghost use Rattle.cool_ports.specs.ShelfFiles.{AskedFront};
ghost use Rattle.cool_sources.specs.CommandLine.{words_of};
ghost use Rattle.cool_sources.specs.Ends.{HasEnded, fresh_shelf, fresh_sink};
ghost use Rattle.cool_explanations.specs.Ends.{spec_of};
ghost use Rattle.cool_explanations.specs.Processes.{form_asked, names_asked};

use crate::form::Form;
use cool_ports::{FileShelf, Shelf, Sink, StdSink};
use cool_sources::{Process, call_of, perform_over_system};
use std::alloc::Global;
use std::io::Write;
use std::rt::Files;

/// Does what the words of a command line ask for, over a runtime's files and the writers of the output and of the notes. Words that are no command
/// line end as those without a name do.
pub fn perform<R: Files, O: Write, E: Write>(
    alloc: Global,
    words: &[String],
    files: R,
    out: O,
    notes: E,
) -> Process<R, O, E>
    // The outcome that is due for the form and the names that the words ask for is written, or a write of it fails.
    ensures ended { HasEnded (spec_of (form_asked (words_of words.now)))
        (fresh_shelf (⟦<FileShelf<R> as Shelf>⟧.faults result.files) (⟦<FileShelf<R> as Shelf>⟧.asked result.files)
        (⟦<FileShelf<R> as Shelf>⟧.gave result.files))
        (names_asked (words_of words.now))
        (fresh_sink (⟦<StdSink<O> as Sink>⟧.held result.out) (⟦<StdSink<O> as Sink>⟧.faults result.out) (⟦<StdSink<O> as Sink>⟧.puts result.out))
        (fresh_sink (⟦<StdSink<E> as Sink>⟧.held result.notes) (⟦<StdSink<E> as Sink>⟧.faults result.notes) (⟦<StdSink<E> as Sink>⟧.puts result.notes))
        result.status }
    // The files of these names only are asked for, from the first on, in order, each once.
    ensures asked { AskedFront (names_asked (words_of words.now)) [] (⟦<FileShelf<R> as Shelf>⟧.asked result.files) }
{
    match call_of("--lines", words) {
        Some(call) => {
            let form = if call.other { Form::Lines } else { Form::Text };
            perform_over_system(alloc, &form, call.names, files, out, notes)
        }
        None => perform_over_system(alloc, &Form::Text, &[], files, out, notes),
    }
}
