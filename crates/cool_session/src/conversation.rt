//! Reads the commands of a session from its input, carries them out, and writes the replies.

ghost use Rattle.std.specs.Prelude.{◌≡◌, ◌≤◌, ℕ, Bool, false, List, Option, Some, IfOk, IsErrOf};
ghost use Rattle.cool_ports.specs.Answers.{Leaves};
ghost use Rattle.cool_ports.specs.SinkPuts.{SinkSeen, seen};
ghost use Rattle.cool_ports.specs.Taking.{Took};
ghost use Rattle.cool_session.specs.Commands.{command};
ghost use Rattle.cool_session.specs.Conversations.{Conversed, LinesPut, Counted};
ghost use Rattle.cool_session.specs.Exchanges.{Line, head, Asks};
ghost use Rattle.cool_session.specs.Held.{held_by};
ghost use Rattle.cool_session.specs.Obeying.{Obeyed, command_ended, command_of};
ghost use Rattle.cool_session.specs.Commands as commands;

use crate::command::{Command, read_command};
use crate::ending::{Ending, Interruption};
use crate::input::{TakenLine, take_file, take_line};
use crate::reply::put_reply;
use crate::session::Session;
use cool_check::PlainTyper;
use cool_ports::{Sink, Source};
use std::alloc::Global;

/// Reads commands from the source and does them one after another, and puts each line of their replies to the sink at once.
///
/// Returns `ReadFault` at the first take that fails, and `WriteFault` at the first put that fails. Returns `Memory` only if memory runs out.
pub fn converse<S: Source, K: Sink>(
    alloc: Global,
    source: &mut S,
    sink: &mut K,
) -> Result<Ending, Interruption>
    ensures took { (ended : Bool) × Took false ended (S.past source.old) (S.past source.new) (S.left source.old) (S.left source.new) }
    ensures unended { IsErrOf result Interruption.ReadFault → (S.past source.new).ends ≡ (S.past source.old).ends }
    ensures conversed { (input left : List ℕ) → Leaves (S.past source.old) (S.past source.new) input left
        → Conversed input result left (K.held sink.old) (K.held sink.new) }
    ensures lines { (input left : List ℕ) → Leaves (S.past source.old) (S.past source.new) input left
        → LinesPut input result left (K.puts sink.old) (K.puts sink.new) }
    ensures counts { Counted result (S.faults source.old) (S.faults source.new) (K.faults sink.old) (K.faults sink.new) }
{
    let mut session = Session::new(alloc);
    let mut number = 0;
    loop {
        match take_line(alloc, source)? {
            TakenLine::Nothing => return Ok(Ending::Over),
            TakenLine::TooLong | TakenLine::Unended => return Ok(Ending::BadCommand(number + 1)),
            TakenLine::Whole(line) => {
                number += 1;
                if let Some(ending) = obey(alloc, number, &mut session, &line, source, sink)? {
                    return Ok(ending);
                }
            }
        }
    }
}

/// Does what a line asks, which is the command of this number. `None` where the session goes on.
fn obey<S: Source, K: Sink>(
    alloc: Global,
    number: u64,
    session: &mut Session,
    line: &[u8],
    source: &mut S,
    sink: &mut K,
) -> Result<Option<Ending>, Interruption>
    ensures took { Took false (command_ended result) (S.past source.old) (S.past source.new) (S.left source.old) (S.left source.new) }
    ensures obeyed { (input rest left : List ℕ) → head input ≡ Line line.now rest → Leaves (S.past source.old) (S.past source.new) rest left
        → Obeyed number (held_by session.old) input result (held_by session.new) left (seen (K.held sink.old) (K.puts sink.old)) (seen (K.held sink.new) (K.puts sink.new)) }
    ensures room { IfOk result (λ _. S.room source.new ≤ S.room source.old) }
    ensures counts { Counted result (S.faults source.old) (S.faults source.new) (K.faults sink.old) (K.faults sink.new) }
{
    match read_command(alloc, line)? {
        None => Ok(Some(Ending::BadCommand(number))),
        Some(Command::Quit) => Ok(Some(Ending::Over)),
        Some(Command::Drop(name)) => {
            session.drop_file(name);
            Ok(None)
        }
        Some(Command::File(name, size)) => { set_file(alloc, number, session, name, size, source) }
        Some(Command::Check) => check(alloc, number, session, sink),
    }
}

/// Sets the file of a name to the next so many bytes of the input.
fn set_file<S: Source>(
    alloc: Global,
    number: u64,
    session: &mut Session,
    name: &str,
    size: u64,
    source: &mut S,
) -> Result<Option<Ending>, Interruption>
    ensures took { Took false (command_ended result) (S.past source.old) (S.past source.new) (S.left source.old) (S.left source.new) }
    ensures obeyed { (input rest left : List ℕ) (sink : SinkSeen) → Asks input (Some (commands.File name.now size)) rest → Leaves (S.past source.old) (S.past source.new) rest left
        → Obeyed number (held_by session.old) input result (held_by session.new) left sink sink }
    ensures room { IfOk result (λ _. S.room source.new ≤ S.room source.old) }
    ensures counts { Counted result (S.faults source.old) (S.faults source.new) 0 0 }
{
    if session.has_room(name, size).is_err() {
        return Ok(Some(Ending::TooLarge(number)));
    }
    let Some(bytes) = take_file(alloc, size, source)? else {
        return Ok(Some(Ending::EndsInFile(number)));
    };
    if session.set_file(name, &bytes).is_err() {
        return Err(Interruption::Memory);
    }
    Ok(None)
}

/// Checks the files and puts the reply.
fn check<K: Sink>(
    alloc: Global,
    number: u64,
    session: &mut Session,
    sink: &mut K,
) -> Result<Option<Ending>, Interruption>
    ensures ended { command_ended result ≡ false }
    ensures obeyed { (input left : List ℕ) → Asks input (Some commands.Check) left → Obeyed number (held_by session.old) input result (held_by session.new) left (seen (K.held sink.old) (K.puts sink.old)) (seen (K.held sink.new) (K.puts sink.new)) }
    ensures counts { Counted result 0 0 (K.faults sink.old) (K.faults sink.new) }
{
    if session.names().is_empty() {
        return Ok(Some(Ending::BadCommand(number)));
    }
    let mut typer = PlainTyper::new();
    let reply = session.check(&mut typer)?;
    put_reply(alloc, session.names(), &reply, sink)?;
    Ok(None)
}
