//! The function `cool` parses the arguments of a call and executes the requested command, with the files, input and outputs that it is given.
//!
//! Input: words, files, input. Output: output, notes and a status. It implements `specs/Ends.antt`.
#![tactic(auto)]

ghost use Rattle.std.specs.Prelude.{◌≡◌, ◌⊎◌, ℕ, List, Bool, IfOk, None, Option, Some, false};
ghost use Rattle.cool_ports.specs.Answers.{Leaves};
ghost use Rattle.cool_ports.specs.Counts.{Rose};
ghost use Rattle.cool_ports.specs.ShelfFiles.{AskedFront};
ghost use Rattle.cool_ports.specs.SinkBytes.{appended, GotPrefix};
ghost use Rattle.cool_ports.specs.Taking.{Took};
ghost use Rattle.cool_driver.specs.Calls.{call_of, shelf_use, sink_use};
ghost use Rattle.cool_driver.specs.CommandLine.{words_of, asked_for, doing_of, names_asked, IfSources, TakesNoInput};
ghost use Rattle.cool_driver.specs.Does.{DoesUnless};
ghost use Rattle.cool_driver.specs.Notes.{usage_note};
ghost use Rattle.cool_driver.specs.Ends.{Ends};
ghost use Rattle.cool_driver.specs.Limits.{AreLimits};
ghost use Rattle.cool_driver.specs.Outside.{outside, shelf_at, sink_at, source_at};
ghost use Rattle.cool_driver.specs.Refusals.{PutsFaults};
ghost use Rattle.cool_driver.specs.Statuses.{READ_FAULT, REFUSED, code_of};
ghost use Rattle.cool_driver.specs.Telling.{PutsLines};
ghost use Rattle.cool_words.specs.Plans.{Answers, Asked, IsWithinBounds, asked_by};
ghost use Rattle.cool_words.specs.Plans.Asked.{session};

mod commands;
mod execution;
mod growing_sink;
mod notes;
mod refusal;
mod sources;
mod status;
mod system;
mod writing;

use commands::big::sum_up;
use commands::build::{Form, build_files};
use commands::check::check_files;
use commands::debug::debug_files;
use commands::eval::evaluate_files;
use commands::exec::execute_file;
use commands::run::run_files;
use commands::session::hold_session;
use cool_ports::{Failed, Shelf, Sink, Source};
use cool_words::{Plan, WordsError, read_words};
use notes::{BAD_COMMAND_LINE, tell};
pub use status::Status;
use std::alloc::Global;
pub use system::cool_over_system;

/// The most bytes of a file for `exec`: those of the greatest image.
pub const MOST_IMAGE_BYTES: u64 = 532_676_628;

/// The most bytes of output that `big` counts.
pub const MOST_BIG_OUTPUT: u64 = 65_536;

/// Does what the words ask, and answers the exit status. The words are those after the program's own name.
pub fn cool<F: Shelf, I: Source, O: Sink, E: Sink>(
    alloc: Global,
    words: &[String],
    files: &mut F,
    input: &mut I,
    out: &mut O,
    notes: &mut E,
) -> u8
    // The limits within which it runs, by their values.
    ensures limits { AreLimits }

    // The shelf keeps its files.
    ensures files { F.files files.new ≡ F.files files.old }

    // It is asked for the files of the command line, in order, each once, up to one that it refuses; for none where they are too many.
    ensures asked { AskedFront (names_asked (asked_for (words_of words.now))) (F.asked files.old) (F.asked files.new) }

    // Each text that it puts to the notes ends in a line feed.
    ensures lines { PutsLines (E.puts notes.old) (E.puts notes.new) }

    // If source files are refused for their faults, it puts a line for each fault.
    ensures refused { result ≡ REFUSED → IfSources (asked_for (words_of words.now))
        (λ names. PutsFaults names (shelf_use F.Shelf files.old files.new) (E.puts notes.old) (E.puts notes.new)) }

    // Only `run`, `exec`, `debug`, `eval` and `session` take of the input.
    ensures input { TakesNoInput (words_of words.now) → input.new ≡ input.old }

    // It takes bytes of the input, and then perhaps the answer that nothing is left, once.
    ensures taken { (ended : Bool) × Took false ended (I.past input.old) (I.past input.new) (I.left input.old) (I.left input.new) }

    // If a read cuts a session short, the source had not answered its end.
    ensures unended { asked_for (words_of words.now) ≡ Some session → result ≡ READ_FAULT → (I.past input.new).ends ≡ (I.past input.old).ends }

    // The end of the call, by its status, for any input that begins with the bytes that it took, and is no more than those if the end was answered.
    ensures ends { (given rest : List ℕ) → Leaves (I.past input.old) (I.past input.new) given rest
        → Ends (call_of (words_of words.now) (shelf_use F.Shelf files.old files.new) given rest (I.faults input.old) (I.faults input.new)
        (sink_use O.Sink out.old out.new) (sink_use E.Sink notes.old notes.new)) result }
{
    carry_out(alloc, read_words(alloc, words), files, input, out, notes).code()
}

/// Does what words ask, by what they were read as, and answers how that ends.
#[tactic(auto, unfolding(crate::specs::Telling::ends_line))]
fn carry_out<F: Shelf, I: Source, O: Sink, E: Sink>(
    alloc: Global,
    plan: Result<Plan, WordsError>,
    files: &mut F,
    input: &mut I,
    out: &mut O,
    notes: &mut E,
) -> Status
    requires { IfOk plan IsWithinBounds }
    ensures input { (asked : Option Asked) → Answers asked_by asked plan → (doing_of asked).takes ≡ false → input.new ≡ input.old }
    ensures unended { (asked : Option Asked) → Answers asked_by asked plan → asked ≡ Some session → code_of result ≡ READ_FAULT
        → (I.past input.new).ends ≡ (I.past input.old).ends }
    ensures does { (asked : Option Asked) → Answers asked_by asked plan → DoesUnless (asked ≡ None) (doing_of asked)
        (outside (shelf_at F.Shelf files.old) (source_at I.Source input.old) (sink_at O.Sink out.old) (sink_at E.Sink notes.old))
        (outside (shelf_at F.Shelf files.new) (source_at I.Source input.new) (sink_at O.Sink out.new) (sink_at E.Sink notes.new)) (code_of result) }
{
    match plan {
        Ok(Plan::Check { files: names }) => check_files(alloc, &names, files, notes),
        Ok(Plan::Asm { files: names }) => {
            build_files(alloc, Form::Text, &names, files, out, notes)
        }
        Ok(Plan::Build { files: names }) => {
            build_files(alloc, Form::Image, &names, files, out, notes)
        }
        Ok(Plan::Run(plan)) => run_files(alloc, &plan, files, input, out, notes),
        Ok(
            Plan::Eval {
                files: names,
                steps,
            },
        ) => evaluate_files(alloc, steps, &names, files, input, out, notes),
        Ok(Plan::Exec { file, limits }) => {
            execute_file(alloc, limits, file, files, input, out, notes)
        }
        Ok(
            Plan::Debug {
                script,
                files: names,
                limits,
            },
        ) => {
            debug_files(
                alloc,
                limits,
                script.as_str(),
                &names,
                files,
                input,
                out,
                notes,
            )
        }
        Ok(Plan::Big { n }) => sum_up(alloc, n, out),
        Ok(Plan::Session) => hold_session(alloc, input, out, notes),
        Err(error) => match error {
            WordsError::Usage => tell(notes, Status::Usage, BAD_COMMAND_LINE),
            WordsError::Memory => Status::Memory,
        },
    }
}

/// Writes the note for words that cannot be had as text.
pub fn refuse_words<E: Sink>(notes: &mut E) -> Status
    ensures statuses { (result ≡ Status.Usage) ⊎ (result ≡ Status.WriteFault) }
    ensures note { result ≡ Status.Usage → E.held notes.new ≡ appended (E.held notes.old) usage_note }
    ensures no_fault { result ≡ Status.Usage → E.faults notes.new ≡ E.faults notes.old }
    ensures write_fault { result ≡ Status.WriteFault → Rose (E.faults notes.old) (E.faults notes.new) }
    ensures prefix { result ≡ Status.WriteFault → GotPrefix (E.held notes.old) usage_note (E.held notes.new) }
{
    match notes.put(BAD_COMMAND_LINE) {
        Ok(()) => Status::Usage,
        Err(Failed) => Status::WriteFault,
    }
}
