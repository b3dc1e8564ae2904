//! `perform` writes the listing that command-line arguments ask for, with the files of a runtime and the writers of the standard library.

ghost use Rattle.std.specs.Prelude.{◌≡◌, []};
ghost use Rattle.cool_ports.specs.ShelfFiles.{AskedFront};
ghost use Rattle.cool_sources.specs.CommandLine.{words_of};
ghost use Rattle.cool_sources.specs.Ends.{HasEnded, fresh_shelf, fresh_sink};
ghost use Rattle.cool_listings.specs.Ends.{spec_of};
ghost use Rattle.cool_listings.specs.Processes.{form_asked, names_asked, option_of, other_form};

use crate::form::Form;
use cool_ports::{FileShelf, Shelf, Sink, StdSink};
use cool_sources::{Process, call_of, perform_over_system};
use std::alloc::Global;
use std::io::Write;
use std::rt::Files;

/// Does what the arguments of a command line ask for, over a runtime's files and the writers of the output and of the notes. Arguments that are not a
/// valid command line end as a command line without a file name does.
pub fn perform<R: Files, O: Write, E: Write>(
    alloc: Global,
    words: &[String],
    files: R,
    out: O,
    notes: E,
) -> Process<R, O, E>
    // The outcome that is due for the form and the names that the arguments ask for is written, or a write of it fails.
    ensures ended { HasEnded (spec_of (form_asked (words_of words.now)))
        (fresh_shelf (⟦<FileShelf<R> as Shelf>⟧.faults result.files) (⟦<FileShelf<R> as Shelf>⟧.asked result.files)
        (⟦<FileShelf<R> as Shelf>⟧.gave result.files))
        (names_asked (words_of words.now))
        (fresh_sink (⟦<StdSink<O> as Sink>⟧.held result.out) (⟦<StdSink<O> as Sink>⟧.faults result.out) (⟦<StdSink<O> as Sink>⟧.puts result.out))
        (fresh_sink (⟦<StdSink<E> as Sink>⟧.held result.notes) (⟦<StdSink<E> as Sink>⟧.faults result.notes) (⟦<StdSink<E> as Sink>⟧.puts result.notes))
        result.status }
    // The files of these names only are asked for, from the first on, in order, each once.
    ensures asked { AskedFront (names_asked (words_of words.now)) [] (⟦<FileShelf<R> as Shelf>⟧.asked result.files) }
{
    let other = other_form(words);
    match call_of(option_of(other), words) {
        Some(call) => {
            let form = if call.other { other } else { Form::Marks };
            perform_over_system(alloc, &form, call.names, files, out, notes)
        }
        None => perform_over_system(alloc, &Form::Marks, &[], files, out, notes),
    }
}

/// The only form besides the marks that these arguments can ask for.
fn other_form(words: &[String]) -> Form
    ensures { result ≡ other_form (words_of words.now) }
{
    match words {
        [first, ..] if first.as_str() == option_of(Form::Tokens) => Form::Tokens,
        [first, ..] if first.as_str() == option_of(Form::Trees) => Form::Trees,
        _ => Form::Code,
    }
}

/// The option that chooses a form. The marks have none.
fn option_of(form: Form) -> &'static str
    ensures { result.now ≡ option_of form }
{
    match form {
        Form::Marks => "",
        Form::Code => "--code",
        Form::Tokens => "--tokens",
        Form::Trees => "--trees",
    }
}
