//! The texts of the messages to standard error, and the functions that write them.

ghost use Rattle.std.specs.Prelude.{◌≡◌, ◌≢◌, ◌+◌, ◌≤◌, [], ◌∷◌, ◌++◌, length, true, IfOk, Some, string_bytes};
ghost use Rattle.cool_faults.specs.Shown.{shown};
ghost use Rattle.cool_driver.specs.Calls.{sink_use};
ghost use Rattle.cool_driver.specs.Contents.{texts};
ghost use Rattle.cool_driver.specs.Notes.{asm_note, asm_words, image_note, script_note, script_words, command_note, trap_words, trap_note};
ghost use Rattle.cool_driver.specs.Statuses.{REFUSED, code_of};
ghost use Rattle.cool_driver.specs.Telling.{AreLines, Noted, PutsLines, ends_line, fault_note, note_of};

use crate::status::Status;
use arrayvec::ArrayString;
use cool_faults::shown;
use cool_ports::{Failed, ShelfFault, Sink};
use mips_image::ImageError;
use mips_isa::{AsmFault, AsmKind, Trap, TrapKind};
use spim_debug::{ScriptFault, ScriptKind, hexadecimal_digits};
use std::alloc::{AllocError, Global};

/// The note for arguments that are not a valid command line.
pub const BAD_COMMAND_LINE: &[u8] = b"cool: bad command line\n";

/// The note for too many files.
pub const TOO_MANY_FILES: &[u8] = b"cool: too many files\n";

/// The note for a run that used up its heap.
pub const HEAP_LIMIT: &[u8] = b"cool: heap limit\n";

/// The note for a run that used up its stack.
pub const STACK_LIMIT: &[u8] = b"cool: stack limit\n";

/// The note for a run that has not ended after its steps.
pub const STEP_LIMIT: &[u8] = b"cool: step limit\n";

/// The note for a run whose input failed.
pub const READ_FAULT: &[u8] = b"cool: read fault\n";

/// Writes a note at once and answers this status, or that the write failed.
pub fn tell<E: Sink>(notes: &mut E, status: Status, note: &[u8]) -> Status
    requires { ends_line note.now ≡ true }
    ensures noted { Noted (sink_use E.Sink notes.old notes.new) note.now status result }
    ensures put { E.puts notes.new ≡ E.puts notes.old ++ note.now ∷ [] }
    ensures lines { PutsLines (E.puts notes.old) (E.puts notes.new) }
    ensures other { code_of status ≢ REFUSED → code_of result ≢ REFUSED }
{
    match notes.put(note) {
        Ok(()) => status,
        Err(Failed) => Status::WriteFault,
    }
}

/// Writes lines one by one and answers this status, or that a write failed.
pub fn tell_lines<E: Sink>(notes: &mut E, status: Status, lines: &[Vec<u8>]) -> Status
    requires { AreLines (texts lines.now) }
    ensures noted { Noted (sink_use E.Sink notes.old notes.new) (note_of lines.now) status result }
    ensures put { result ≢ Status.WriteFault → E.puts notes.new ≡ E.puts notes.old ++ texts lines.now }
    ensures lines { PutsLines (E.puts notes.old) (E.puts notes.new) }
{
    for line in lines {
        if notes.put(line).is_err() {
            return Status::WriteFault;
        }
    }
    status
}

/// The note of a trap. It takes no memory: it is made when the machine has run.
pub fn trap_note(trap: Trap) -> ArrayString<64>
    ensures { result.bytes ≡ trap_note trap }
{
    let mut note = ArrayString::new();
    note.push_str("trap: ");
    note.push_str(trap_words(trap.kind));
    note.push_str(" at 0x");
    note.push_str(hexadecimal_digits(trap.address).as_str());
    note.push_str(", pc 0x");
    note.push_str(hexadecimal_digits(trap.pc).as_str());
    note.push_str("\n");
    note
}

fn trap_words(kind: TrapKind) -> &'static str
    ensures words { result.now ≡ trap_words kind }
    ensures short { length result.now ≤ 17 }
{
    match kind {
        TrapKind::BadAddress => "bad address",
        TrapKind::Unaligned => "unaligned address",
        TrapKind::Overflow => "overflow",
        TrapKind::NoInstruction => "no instruction",
        TrapKind::BadCall => "bad call",
    }
}

/// The note of a file or a script that was not read.
pub fn file_note(alloc: Global, name: &str, fault: ShelfFault) -> Result<Vec<u8>, AllocError>
    ensures { IfOk result (λ note. fault_note name.now fault ≡ Some note.items) }
{
    match fault {
        ShelfFault::Missing => named_note(alloc, b"cool: ", name, b": missing\n"),
        ShelfFault::Failed => named_note(alloc, b"cool: ", name, b": read failed\n"),
        ShelfFault::TooLarge => Vec::from_slice(alloc, b"cool: files too large\n"),
        ShelfFault::Memory => Err(AllocError),
    }
}

/// A note that has a file name between other words; `shown` replaces the bytes of the name that a terminal obeys. Returns `Err` only if memory runs out.
fn named_note(alloc: Global, front: &[u8], name: &str, back: &[u8]) -> Result<Vec<u8>, AllocError>
    ensures { IfOk result (λ note. note.items ≡ front.now ++ (shown name.now ++ back.now)) }
{
    let mut note = Vec::from_slice(alloc, front)?;
    note.extend_from_slice(&shown(alloc, name.as_bytes())?)?;
    note.extend_from_slice(back)?;
    Ok(note)
}

/// The note of a text with a fault.
pub fn asm_note(alloc: Global, name: &str, fault: AsmFault) -> Result<Vec<u8>, AllocError>
    ensures { IfOk result (λ note. note.items ≡ asm_note name.now fault) }
{
    let line = fault.line;
    let words = asm_words(fault.kind);
    named_note(
        alloc,
        b"",
        name,
        format!(in alloc; ":{line}: {words}\n")?.as_bytes(),
    )
}

/// The kind of a fault of assembly, and what it says.
fn asm_words(kind: AsmKind) -> &'static str
    ensures { result.now ≡ asm_words kind }
{
    match kind {
        AsmKind::A1 => "A1: unknown word",
        AsmKind::A2 => "A2: wrong operand",
        AsmKind::A3 => "A3: number out of range",
        AsmKind::A4 => "A4: unknown directive",
        AsmKind::A5 => "A5: label defined twice",
        AsmKind::A6 => "A6: label not defined",
        AsmKind::A7 => "A7: branch too far",
        AsmKind::A8 => "A8: wrong segment",
        AsmKind::A9 => "A9: segment too large",
    }
}

/// The note of a script with a fault.
pub fn script_note(alloc: Global, name: &str, fault: ScriptFault) -> Result<Vec<u8>, AllocError>
    ensures { IfOk result (λ note. note.items ≡ script_note name.now fault) }
{
    let line = fault.line;
    let words = script_words(fault.kind);
    named_note(
        alloc,
        b"",
        name,
        format!(in alloc; ":{line}: {words}\n")?.as_bytes(),
    )
}

/// The kind of a fault of a script, and what it says.
fn script_words(kind: ScriptKind) -> &'static str
    ensures { result.now ≡ script_words kind }
{
    match kind {
        ScriptKind::B1 => "B1: bad script line",
        ScriptKind::B2 => "B2: unknown label",
    }
}

/// The note of the command of a session that has this number.
pub fn command_note(alloc: Global, number: u64, words: &str) -> Result<String, AllocError>
    ensures { IfOk result (λ note. string_bytes note ≡ command_note number words.now) }
{
    format!(in alloc; "session:{number}: {words}\n")
}

/// The note of a file that is no image.
pub fn image_note(alloc: Global, name: &str, fault: ImageError) -> Result<Vec<u8>, AllocError>
    ensures note { IfOk result (λ note. note.items ≡ image_note name.now fault) }
    ensures fault { IfOk result (λ _. fault ≢ ImageError.Memory) }
{
    match fault {
        ImageError::Memory => Err(AllocError),
        ImageError::I1 => named_note(alloc, b"", name, b": I1: wrong magic\n"),
        ImageError::I2 => named_note(alloc, b"", name, b": I2: unknown version\n"),
        ImageError::I3 => named_note(alloc, b"", name, b": I3: too short\n"),
        ImageError::I4 => named_note(alloc, b"", name, b": I4: sizes out of range\n"),
        ImageError::I5 => named_note(alloc, b"", name, b": I5: bytes after the end\n"),
    }
}
