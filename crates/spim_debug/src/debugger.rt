//! The debugger: it runs a program, stops at breakpoints, and writes the notes (messages) that the commands of a script ask for.

ghost use Rattle.std.specs.Prelude.{◌≡◌, ◌≤◌, ◌<◌, ◌+◌, ◌-◌, List, [], ◌∷◌, ℕ, Bool, Option, Some, false, length, IfOk, OnOk};
ghost use Rattle.cool_ports.specs.Answers.{Leaves};
ghost use Rattle.cool_ports.specs.SinkPuts.{seen};
ghost use Rattle.cool_ports.specs.Taking.{Took, OfAnyInput};
ghost use Rattle.mips_isa.specs.declared.address_map.TheConstants.{MOST_TEXT_WORDS};
ghost use Rattle.spim_memory.specs.Memory.{IsLimits, segments, bytes_of};
ghost use Rattle.spim_debug.specs.declared.script.DebugCommand.TheVariants as commands;
ghost use Rattle.spim_debug.specs.Moves.{Debuggee, Progress, beginning};
ghost use Rattle.spim_debug.specs.ByteCounts.{counted};
ghost use Rattle.spim_debug.specs.Notes.{listed, listed_from, words_from, words_note};
ghost use Rattle.spim_debug.specs.Debugging.{IsTextAddress, IsCommandFor, IsScriptFor, debuggee, Debugged, NotesPut, CountedBy};
ghost use Rattle.spim_debug.specs.Obeying.{IsDebuggerOf, IsReady, KeepsText, Stands, EndsFrom, IsPut, ArePut, StopNoted, Obeyed, CountedUnless, NotesCounted};
ghost use Rattle.spim_machine.specs.Ends.{Counted};

use crate::DebugCommand;
use crate::break_set::BreakSet;
use crate::counted_run::{CountedRun, run_counted};
use crate::notes::{
    at_note, counted_note, ended_note, listed, memory_note, registers_note, words_note,
};
use cool_ports::{Failed, Sink, Source};
use mips_isa::Image;
use spim_cpu::{NoBreaks, word_index};
use spim_machine::{Halt, Machine};
use spim_memory::{Limits, Memory};
use std::alloc::{AllocError, Global};

/// The end of a debugged run.
#[derive(Clone, Copy)]
pub enum DebugEnd {
    /// As the machine's run ended.
    Halt(Halt),
    /// A `put` of a note failed.
    NoteFault,
    /// Memory ran out.
    Memory,
}

/// Runs an image, executes the commands of a script in order, and then goes on up to the budget of instructions.
///
/// Its run is the plain run of the image: it ends as that, with the same output and the same input left. Each note is one `put`. Returns `NoteFault` at
/// the first `put` of a note that fails, and `Memory` only if memory runs out. The rest of the script is not done after `ReadFault`, `WriteFault`,
/// `NoteFault` and `Memory`.
pub fn debug<S: Source, K: Sink, E: Sink>(
    alloc: Global,
    image: &Image,
    limits: Limits,
    budget: u64,
    script: &[DebugCommand],
    source: &mut S,
    sink: &mut K,
    notes: &mut E,
) -> DebugEnd
    requires limits { IsLimits limits.heap limits.stack }
    requires script { IsScriptFor image.now.text script.now }
    ensures taken { (ended : Bool) × Took false ended (S.past source.old) (S.past source.new) (S.left source.old) (S.left source.new) }
    ensures debugged { (input rest : List ℕ) → Leaves (S.past source.old) (S.past source.new) input rest
        → Debugged (debuggee image.now limits.heap limits.stack budget input) script.now result (K.held sink.old) (Some rest) (K.held sink.new) (E.held notes.old) (E.held notes.new) }
    ensures notes_put { (input rest : List ℕ) → Leaves (S.past source.old) (S.past source.new) input rest
        → NotesPut (debuggee image.now limits.heap limits.stack budget input) script.now result (E.puts notes.old) (E.puts notes.new) }
    ensures counts { CountedBy result (S.faults source.old) (S.faults source.new) (K.faults sink.old) (K.faults sink.new) (E.faults notes.old) (E.faults notes.new) }
{
    let Ok(mut debugger) = Debugger::load(alloc, image, limits, budget) else {
        return DebugEnd::Memory;
    };
    for command in script {
        if let Err(end) = debugger.obey(alloc, &image.text, *command, source, sink, notes) {
            return end;
        }
    }
    DebugEnd::Halt(debugger.finish(source, sink))
}

/// A machine that is debugged, its break addresses, how many instructions it has executed, how many it may execute in all, and how many
/// bytes it has put, up to the largest number.
#[derive(Drop)]
struct Debugger {
    machine: Machine,
    breaks: BreakSet,
    executed: u64,
    budget: u64,
    printed: u64,
}

impl Debugger {
    /// At the start of a run of this image, with no break address. Returns `Err` only if memory runs out.
    fn load(
        alloc: Global,
        image: &Image,
        limits: Limits,
        budget: u64,
    ) -> Result<Debugger, AllocError>
        requires { IsLimits limits.heap limits.stack }
        ensures debugger { IfOk result (λ x. IsDebuggerOf image.now.text x) }
        ensures stands { IfOk result (λ x. (input : List ℕ) (first : Option (List ℕ)) → Stands (debuggee image.now limits.heap limits.stack budget input) beginning first x (Some input) first) }
        ensures fresh { IfOk result (λ x. x.machine.ended ≡ false) }
    {
        Ok(Debugger {
            machine: Machine::load(alloc, image, limits)?,
            breaks: BreakSet::new(alloc, image.text.len())?,
            executed: 0,
            budget,
            printed: 0,
        })
    }

    /// Executes a command. After an `Err` the rest of the script is not to be done.
    fn obey<S: Source, K: Sink, E: Sink>(
        &mut self,
        alloc: Global,
        text: &[u32],
        command: DebugCommand,
        source: &mut S,
        sink: &mut K,
        notes: &mut E,
    ) -> Result<(), DebugEnd>
        requires debugger { IsDebuggerOf text.now self.old }
        requires command { IsCommandFor text.now command }
        ensures debugger { OnOk result (IsDebuggerOf text.now self.new) }
        ensures took { Took self.old.machine.ended self.new.machine.ended (S.past source.old) (S.past source.new) (S.left source.old) (S.left source.new) }
        ensures obeyed { (d : Debuggee) (p : Progress) (first : Option (List ℕ)) → OfAnyInput (S.past source.old) (S.past source.new) (λ input rest. Stands d p first self.old input (K.held sink.old)
            → Obeyed d command p first result self.new rest (K.held sink.new) (seen (E.held notes.old) (E.puts notes.old)) (seen (E.held notes.new) (E.puts notes.new))) }
        ensures counts { CountedUnless result (S.faults source.old) (S.faults source.new) (K.faults sink.old) (K.faults sink.new) (E.faults notes.old) (E.faults notes.new) }
    {
        match command {
            DebugCommand::Break(address) => {
                self.breaks.insert(address);
                Ok(())
            }
            DebugCommand::Delete(address) => {
                self.breaks.remove(address);
                Ok(())
            }
            DebugCommand::Step(most) => self.step(most, source, sink, notes),
            DebugCommand::Run => self.run(source, sink, notes),
            DebugCommand::Regs => {
                put_note(
                    notes,
                    registers_note(self.machine.cpu()).as_str().as_bytes(),
                )
            }
            DebugCommand::Out => put_note(notes, counted_note(self.printed).as_str().as_bytes()),
            DebugCommand::Show(address) => {
                put_note(
                    notes,
                    memory_note(self.machine.cpu().memory(), address)
                        .as_str()
                        .as_bytes(),
                )
            }
            DebugCommand::Words(address, count) => {
                let memory = self.machine.cpu().memory();
                put_words(alloc, memory, address, count, notes)
            }
            DebugCommand::List(address, most) => list(alloc, text, address, most, notes),
        }
    }

    /// Executes so many instructions, or as many as the budget has left, and notes where the machine is.
    fn step<S: Source, K: Sink, E: Sink>(
        &mut self,
        most: u64,
        source: &mut S,
        sink: &mut K,
        notes: &mut E,
    ) -> Result<(), DebugEnd>
        requires { IsReady self.old }
        ensures keeps { KeepsText self.old self.new }
        ensures ready { OnOk result (IsReady self.new) }
        ensures took { Took self.old.machine.ended self.new.machine.ended (S.past source.old) (S.past source.new) (S.left source.old) (S.left source.new) }
        ensures obeyed { (d : Debuggee) (p : Progress) (first : Option (List ℕ)) → OfAnyInput (S.past source.old) (S.past source.new) (λ input rest. Stands d p first self.old input (K.held sink.old)
            → Obeyed d (commands.Step most) p first result self.new rest (K.held sink.new) (seen (E.held notes.old) (E.puts notes.old)) (seen (E.held notes.new) (E.puts notes.new))) }
        ensures counts { CountedUnless result (S.faults source.old) (S.faults source.new) (K.faults sink.old) (K.faults sink.new) (E.faults notes.old) (E.faults notes.new) }
    {
        let left = self.budget - self.executed;
        let run = run_counted(&mut self.machine, most.min(left), &NoBreaks, source, sink);
        self.note_stop(run, notes)
    }

    /// Executes an instruction, if the budget has one, and goes on up to a break address, and notes where the machine is.
    fn run<S: Source, K: Sink, E: Sink>(
        &mut self,
        source: &mut S,
        sink: &mut K,
        notes: &mut E,
    ) -> Result<(), DebugEnd>
        requires { IsReady self.old }
        ensures keeps { KeepsText self.old self.new }
        ensures ready { OnOk result (IsReady self.new) }
        ensures took { Took self.old.machine.ended self.new.machine.ended (S.past source.old) (S.past source.new) (S.left source.old) (S.left source.new) }
        ensures obeyed { (d : Debuggee) (p : Progress) (first : Option (List ℕ)) → OfAnyInput (S.past source.old) (S.past source.new) (λ input rest. Stands d p first self.old input (K.held sink.old)
            → Obeyed d commands.Run p first result self.new rest (K.held sink.new) (seen (E.held notes.old) (E.puts notes.old)) (seen (E.held notes.new) (E.puts notes.new))) }
        ensures counts { CountedUnless result (S.faults source.old) (S.faults source.new) (K.faults sink.old) (K.faults sink.new) (E.faults notes.old) (E.faults notes.new) }
    {
        let left = self.budget - self.executed;
        let run = run_counted(&mut self.machine, left, &self.breaks, source, sink);
        self.note_stop(run, notes)
    }

    /// Counts the instructions that a run executed, and the bytes that it put, and notes where it stopped, unless a read or a write failed
    /// in it.
    fn note_stop<E: Sink>(&mut self, run: CountedRun, notes: &mut E) -> Result<(), DebugEnd>
        requires { self.old.executed + run.stopped.executed ≤ self.old.budget }
        ensures debugger { self.new ≡ record self.old { executed = self.old.executed + run.stopped.executed; printed = counted (self.old.printed + run.bytes) } }
        ensures noted { StopNoted run.stopped.halt self.old.machine.cpu.pc (self.old.executed + run.stopped.executed) result (seen (E.held notes.old) (E.puts notes.old)) (seen (E.held notes.new) (E.puts notes.new)) }
        ensures counts { NotesCounted result (E.faults notes.old) (E.faults notes.new) }
    {
        self.executed += run.stopped.executed;
        self.printed = self.printed.saturating_add(run.bytes);
        match run.stopped.halt {
            Halt::StepLimit => {
                let pc = self.machine.cpu().pc();
                put_note(notes, at_note(pc, self.executed).as_str().as_bytes())
            }
            Halt::Exit(_) | Halt::Trap(_) => {
                put_note(notes, ended_note(self.executed).as_str().as_bytes())
            }
            Halt::ReadFault | Halt::WriteFault => Err(DebugEnd::Halt(run.stopped.halt)),
        }
    }

    /// Executes as many instructions as the budget has left, and returns how the run ended.
    fn finish<S: Source, K: Sink>(&mut self, source: &mut S, sink: &mut K) -> Halt
        requires { IsReady self.old }
        ensures took { Took self.old.machine.ended self.new.machine.ended (S.past source.old) (S.past source.new) (S.left source.old) (S.left source.new) }
        ensures ended { (d : Debuggee) (p : Progress) (first : Option (List ℕ)) → OfAnyInput (S.past source.old) (S.past source.new) (λ input rest. Stands d p first self.old input (K.held sink.old)
            → EndsFrom d p (d.budget - p.executed) first result rest (K.held sink.new)) }
        ensures counts { Counted result (S.faults source.old) (S.faults source.new) (K.faults sink.old) (K.faults sink.new) }
    {
        self.machine
            .run_to(self.budget - self.executed, &NoBreaks, source, sink)
            .halt
    }
}

/// Puts a note of each word of a text from an address on, so many at most. Returns `Memory` only if memory runs out.
fn list<E: Sink>(
    alloc: Global,
    text: &[u32],
    address: u32,
    most: u32,
    notes: &mut E,
) -> Result<(), DebugEnd>
    requires address { IsTextAddress text.now address }
    requires few { length text.now ≤ MOST_TEXT_WORDS }
    ensures put { ArePut (listed_from address (words_from text.now address most)) result (seen (E.held notes.old) (E.puts notes.old)) (seen (E.held notes.new) (E.puts notes.new)) }
    ensures counts { NotesCounted result (E.faults notes.old) (E.faults notes.new) }
{
    let rest = &text[word_index(address)..];
    let words = &rest[..(most as usize).min(rest.len())];
    let mut at = address;
    for word in words {
        list_word(alloc, at, *word, notes)?;
        at += 4;
    }
    Ok(())
}

/// Puts a note of a word at an address. Returns `Memory` only if memory runs out.
fn list_word<E: Sink>(alloc: Global, at: u32, word: u32, notes: &mut E) -> Result<(), DebugEnd>
    ensures put { ArePut (listed at word ∷ []) result (seen (E.held notes.old) (E.puts notes.old)) (seen (E.held notes.new) (E.puts notes.new)) }
    ensures counts { NotesCounted result (E.faults notes.old) (E.faults notes.new) }
{
    let Ok(note) = listed(alloc, at, word) else {
        return Err(DebugEnd::Memory);
    };
    put_note(notes, &note)
}

/// Puts a note of so many words from an address on. Returns `Memory` only if memory runs out.
fn put_words<E: Sink>(
    alloc: Global,
    memory: &Memory,
    address: u32,
    count: u32,
    notes: &mut E,
) -> Result<(), DebugEnd>
    ensures put { ArePut (words_note (segments memory.now) (bytes_of memory.now) address count ∷ []) result (seen (E.held notes.old) (E.puts notes.old)) (seen (E.held notes.new) (E.puts notes.new)) }
    ensures counts { NotesCounted result (E.faults notes.old) (E.faults notes.new) }
{
    let Ok(note) = words_note(alloc, memory, address, count) else {
        return Err(DebugEnd::Memory);
    };
    put_note(notes, &note)
}

/// Puts a note at once.
fn put_note<E: Sink>(notes: &mut E, note: &[u8]) -> Result<(), DebugEnd>
    requires { 0 < length note.now }
    ensures put { IsPut note.now result (seen (E.held notes.old) (E.puts notes.old)) (seen (E.held notes.new) (E.puts notes.new)) }
    ensures counts { NotesCounted result (E.faults notes.old) (E.faults notes.new) }
{
    match notes.put(note) {
        Ok(()) => Ok(()),
        Err(Failed) => Err(DebugEnd::NoteFault),
    }
}
