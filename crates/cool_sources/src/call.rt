//! Performs a task on source files, from their names to the output text, the message on standard error and the exit status.

ghost use Rattle.std.specs.Prelude.{◌≡◌, ◌≢◌, ◌≤◌, [], length, map, string_bytes, IfOk};
ghost use Rattle.cool_syntax.specs.declared.TheConstants.{MOST_FILES};
ghost use Rattle.cool_ports.specs.ShelfFiles.{AskedFront};
ghost use Rattle.cool_sources.specs.Devices.{shelf_use, sink_use};
ghost use Rattle.cool_sources.specs.Ends.{HasEnded, IsDone, IsTold};
ghost use Rattle.cool_sources.specs.Notes.{note_text};
ghost use Rattle.cool_sources.specs.Tasks.{IsCall, IsDue, verdict};

use crate::note::{Note, file_note};
use crate::reading::{ReadError, read_files};
use crate::status::{Status, tell};
use crate::task::Task;
use cool_ports::{Failed, Shelf, Sink, put_pieces};
use cool_syntax::{MOST_FILES, MOST_SOURCE_BYTES};
use std::alloc::{AllocError, Global};

/// The most bytes of a piece of the output.
const MOST_PIECE_BYTES: usize = 4_096;

/// The outcome that is due for a call.
#[derive(Drop)]
struct Outcome {
    status: Status,
    text: Vec<u8>,
    note: Note,
}

/// Writes the answer of a task on the files of these names, or the note that says why there is none, and returns the status.
pub fn perform_task<T: Task, F: Shelf, O: Sink, E: Sink>(
    alloc: Global,
    task: &T,
    names: &[String],
    files: &mut F,
    out: &mut O,
    notes: &mut E,
) -> Status
    // The outcome that is due is written, or a write of it fails.
    ensures ended { HasEnded (T.spec task.now) (shelf_use F.files F.faults F.asked F.gave files.old files.new) (map string_bytes names.now)
        (sink_use O.held O.faults O.puts out.old out.new) (sink_use E.held E.faults E.puts notes.old notes.new) result }
    // The shelf is asked for files of these names only, from the first on, in order, each once.
    ensures asked { AskedFront (map string_bytes names.now) (F.asked files.old) (F.asked files.new) }
    ensures kept { F.files files.new ≡ F.files files.old }
    ensures no_less { F.faults files.old ≤ F.faults files.new }
{
    let due = due_outcome(alloc, task, names, files);
    carry_out(&due, out, notes)
}

/// The outcome that is due for the files of these names.
#[tactic(auto, using(cool_ports::proofs::AskedNames::asked_none))]
fn due_outcome<T: Task, F: Shelf>(
    alloc: Global,
    task: &T,
    names: &[String],
    files: &mut F,
) -> Outcome
    ensures is { IsDue (T.spec task.now) (shelf_use F.files F.faults F.asked F.gave files.old files.new) (map string_bytes names.now)
        result.status result.text.items (note_text result.note) }
    ensures other { result.status ≢ Status.WriteFault }
    ensures asked { AskedFront (map string_bytes names.now) (F.asked files.old) (F.asked files.new) }
    ensures kept { F.files files.new ≡ F.files files.old }
    ensures no_less { F.faults files.old ≤ F.faults files.new }
{
    if names.is_empty() {
        return noted(alloc, Status::Usage, Note::Fixed(task.notes().usage));
    }
    if !task.accepts(names) {
        return noted(alloc, Status::Usage, Note::Fixed(task.notes().usage));
    }
    if names.len() > MOST_FILES {
        return noted(alloc, Status::FileFault, Note::Fixed(task.notes().too_many));
    }
    match outcome_of_few(alloc, task, names, files) {
        Ok(due) => due,
        Err(AllocError) => noted(alloc, Status::Memory, Note::Fixed(b"")),
    }
}

/// The outcome that is due for the files of these names, which are not too many. Returns `Err` only if memory runs out.
#[tactic(auto, using(cool_ports::proofs::AskedNames::asked_whole))]
fn outcome_of_few<T: Task, F: Shelf>(
    alloc: Global,
    task: &T,
    names: &[String],
    files: &mut F,
) -> Result<Outcome, AllocError>
    requires call { IsCall (T.spec task.now) (map string_bytes names.now) }
    requires few { length names.now ≤ MOST_FILES }
    ensures is { IfOk result (λ due. IsDue (T.spec task.now) (shelf_use F.files F.faults F.asked F.gave files.old files.new) (map string_bytes names.now)
        due.status due.text.items (note_text due.note)) }
    ensures other { IfOk result (λ due. due.status ≢ Status.WriteFault) }
    ensures asked { AskedFront (map string_bytes names.now) (F.asked files.old) (F.asked files.new) }
    ensures kept { F.files files.new ≡ F.files files.old }
    ensures no_less { F.faults files.old ≤ F.faults files.new }
{
    match read_files(alloc, names, MOST_SOURCE_BYTES, files) {
        Ok(contents) => {
            let answer = task.answer(alloc, names, &contents)?;
            Ok(Outcome {
                status: verdict(answer.faulty),
                text: answer.text,
                note: Note::Fixed(answer.note),
            })
        }
        Err(ReadError::Refused(name, fault)) => {
            let note = file_note(alloc, &task.notes(), name, fault)?;
            Ok(noted(alloc, Status::FileFault, note))
        }
        Err(ReadError::Memory) => Err(AllocError),
    }
}

/// An outcome with a note and no text.
fn noted(alloc: Global, status: Status, note: Note) -> Outcome
    ensures status { result.status ≡ status }
    ensures text { result.text.items ≡ [] }
    ensures note { result.note ≡ note }
{
    Outcome {
        status,
        text: Vec::new(alloc),
        note,
    }
}

/// The status of files that have faults, or none.
fn verdict(faulty: bool) -> Status
    ensures status { result ≡ verdict faulty }
    ensures other { result ≢ Status.WriteFault }
{
    if faulty {
        Status::Refused
    } else {
        Status::Done
    }
}

/// Writes the text of an outcome, and then its note, and returns its status, or that a write failed.
fn carry_out<O: Sink, E: Sink>(due: &Outcome, out: &mut O, notes: &mut E) -> Status
    requires { due.now.status ≢ Status.WriteFault }
    ensures { IsDone due.now.status due.now.text.items (note_text due.now.note) (sink_use O.held O.faults O.puts out.old out.new)
        (sink_use E.held E.faults E.puts notes.old notes.new) result }
{
    match put_pieces(out, &due.text, MOST_PIECE_BYTES) {
        Ok(()) => tell_note(notes, due.status, due.note.bytes()),
        Err(Failed) => Status::WriteFault,
    }
}

/// Writes a note at once, if there is one, and returns the status, or that the write failed.
fn tell_note<E: Sink>(notes: &mut E, status: Status, note: &[u8]) -> Status
    requires { status ≢ Status.WriteFault }
    ensures { IsTold status note.now (sink_use E.held E.faults E.puts notes.old notes.new) result }
{
    if note.is_empty() {
        return status;
    }
    tell(notes, status, note)
}
