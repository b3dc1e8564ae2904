//! The command `session`: reads commands from the input, executes each and writes its reply to the output.

ghost use Rattle.std.specs.Prelude.{◌≡◌, List, ℕ, Bool, false};
ghost use Rattle.cool_ports.specs.Answers.{Leaves};
ghost use Rattle.cool_ports.specs.Taking.{Took};
ghost use Rattle.cool_driver.specs.Calls.{Request, sink_use};
ghost use Rattle.cool_driver.specs.Does.{Goes};
ghost use Rattle.cool_driver.specs.Notes.{command_note};
ghost use Rattle.cool_driver.specs.Statuses.{code_of};
ghost use Rattle.cool_driver.specs.Telling.{NotedIfMade, PutsLines};
ghost use Rattle.cool_driver.specs.commands.Session.{SessionEnds};

use crate::notes::{READ_FAULT, command_note, tell};
use crate::status::Status;
use cool_ports::{Sink, Source};
use cool_session::{Ending, Interruption, converse};
use std::alloc::{AllocError, Global};

/// The note for a command of no valid form.
const BAD_COMMAND: &str = "B3: bad command";

/// The note for an input that ends before all bytes of a file.
const ENDS_IN_FILE: &str = "B4: input ends in a file";

/// The note for a file for which a session has no room.
const TOO_LARGE: &str = "B5: session too large";

/// Does what the commands in the input say, and writes why it ended.
#[tactic(auto, using(crate::proofs::LinesOfNotes::no_lines), unfolding(crate::specs::Telling::ends_line))]
pub fn hold_session<I: Source, O: Sink, E: Sink>(
    alloc: Global,
    input: &mut I,
    out: &mut O,
    notes: &mut E,
) -> Status
    ensures lines { PutsLines (E.puts notes.old) (E.puts notes.new) }
    ensures taken { (ended : Bool) × Took false ended (I.past input.old) (I.past input.new) (I.left input.old) (I.left input.new) }
    ensures unended { result ≡ Status.ReadFault → (I.past input.new).ends ≡ (I.past input.old).ends }
    ensures ends { (r : Request) (rest : List ℕ) → r.faults_after ≡ r.faults_before → Leaves (I.past input.old) (I.past input.new) r.input rest → Goes SessionEnds (record {
      request = r;
      out = sink_use O.Sink out.old out.new;
      notes = sink_use E.Sink notes.old notes.new;
      left = rest;
      input_before = I.faults input.old;
      input_after = I.faults input.new;
    }) (code_of result) }
{
    match converse(alloc, input, out) {
        Ok(Ending::Over) => Status::Done,
        Ok(Ending::BadCommand(number)) => tell_command(alloc, notes, number, BAD_COMMAND),
        Ok(Ending::EndsInFile(number)) => tell_command(alloc, notes, number, ENDS_IN_FILE),
        Ok(Ending::TooLarge(number)) => tell_command(alloc, notes, number, TOO_LARGE),
        Err(Interruption::ReadFault) => tell(notes, Status::ReadFault, READ_FAULT),
        Err(Interruption::WriteFault) => Status::WriteFault,
        Err(Interruption::Memory) => Status::Memory,
    }
}

/// Writes what is wrong with the command of this number, and answers the status, or that the write failed or memory ran out.
fn tell_command<E: Sink>(alloc: Global, notes: &mut E, number: u64, words: &str) -> Status
    ensures noted { NotedIfMade (sink_use E.Sink notes.old notes.new) (command_note number words.now) Status.Unfit result }
    ensures lines { PutsLines (E.puts notes.old) (E.puts notes.new) }
{
    match command_note(alloc, number, words) {
        Ok(note) => tell(notes, Status::Unfit, note.as_bytes()),
        Err(AllocError) => Status::Memory,
    }
}
