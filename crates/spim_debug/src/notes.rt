//! The texts of the debugger's notes (messages): the current address, registers, memory, instructions and output counts.

ghost use Rattle.std.specs.Prelude.{◌≡◌, ◌+◌, ◌≤◌, ◌++◌, IfOk, decimal, codes, Result};
ghost use Rattle.arrayvec.specs.ArrayString.{array_string_len};
ghost use Rattle.mips_isa.specs.Decoding.{decoded};
ghost use Rattle.mips_isa.specs.Lines.{statement_of};
ghost use Rattle.mips_text.specs.Printing.{statement_text};
ghost use Rattle.spim_memory.specs.Memory.{segments, bytes_of};
ghost use Rattle.spim_cpu.specs.Cpu.{core_of};
ghost use Rattle.spim_debug.specs.Notes as spec;

use crate::{disassemble, hexadecimal_digits};
use arrayvec::ArrayString;
use itoa::Buffer;
use mips_isa::{Line, Reg};
use mips_text::print_statement;
use spim_cpu::Cpu;
use spim_memory::{MemFault, Memory};
use std::alloc::{AllocError, Global};

/// A note that takes no memory. The longest one has the registers.
pub type Note = ArrayString<302>;

/// The note of the address at which the run is, after so many instructions.
pub fn at_note(pc: u32, executed: u64) -> Note
    ensures { result.bytes ≡ spec.at_note pc executed }
{
    let mut note = Note::new();
    note.push_str("at ");
    push_word(&mut note, pc);
    note.push_str(" after ");
    push_decimal(&mut note, executed);
    note.push_str("\n");
    note
}

/// The note that the run has ended, after so many instructions.
pub fn ended_note(executed: u64) -> Note
    ensures { result.bytes ≡ spec.ended_note executed }
{
    let mut note = Note::new();
    note.push_str("ended after ");
    push_decimal(&mut note, executed);
    note.push_str("\n");
    note
}

/// The values of pc and the registers.
pub fn registers_note(cpu: &Cpu) -> Note
    ensures { result.bytes ≡ spec.registers_note (core_of cpu.now) }
{
    let mut note = Note::new();
    note.push_str("regs");
    push_spaced(&mut note, cpu.pc());
    for number in 0..32 {
        push_spaced(&mut note, cpu.register(Reg::new(number)));
    }
    note.push_str("\n");
    note
}

/// The number of bytes of output.
pub fn counted_note(bytes: u64) -> Note
    ensures { result.bytes ≡ spec.counted_note bytes }
{
    let mut note = Note::new();
    note.push_str("out ");
    push_decimal(&mut note, bytes);
    note.push_str("\n");
    note
}

/// The word at an address, or why it may not be loaded.
pub fn memory_note(memory: &Memory, a: u32) -> Note
    ensures { result.bytes ≡ spec.memory_note (segments memory.now) (bytes_of memory.now) a }
{
    let mut note = Note::new();
    push_word(&mut note, a);
    note.push_str(": ");
    push_loaded(&mut note, memory.load_word(a));
    note.push_str("\n");
    note
}

/// So many words from an address on, up to the first that may not be loaded. Returns `Err` only if memory runs out.
pub fn words_note(alloc: Global, memory: &Memory, a: u32, count: u32) -> Result<Vec<u8>, AllocError>
    ensures { IfOk result (λ note. note.items ≡ spec.words_note (segments memory.now) (bytes_of memory.now) a count) }
{
    let mut head = Note::new();
    push_word(&mut head, a);
    head.push_str(":");
    let mut note = Vec::from_slice(alloc, head.as_str().as_bytes())?;
    push_words(&mut note, memory, a, count)?;
    note.push(b'\n')?;
    Ok(note)
}

/// Adds so many words from an address on, up to the first that may not be loaded. Returns `Err` only if memory runs out.
fn push_words(note: &mut Vec<u8>, memory: &Memory, a: u32, count: u32) -> Result<(), AllocError>
    ensures { IfOk result (λ done. note.new.items ≡ note.old.items ++ spec.words_text (segments memory.now) (bytes_of memory.now) a count) }
{
    let mut at = a;
    for _done in 0..count {
        let loaded = memory.load_word(at);
        note.extend_from_slice(loaded_note(loaded).as_str().as_bytes())?;
        match loaded {
            Ok(_) => at = at.wrapping_add(4),
            Err(_) => return Ok(()),
        }
    }
    Ok(())
}

/// A space, and the result of a load.
fn loaded_note(loaded: Result<u32, MemFault>) -> Note
    ensures { result.bytes ≡ codes " " ++ spec.loaded_text loaded }
{
    let mut note = Note::new();
    note.push_str(" ");
    push_loaded(&mut note, loaded);
    note
}

/// The instruction of a word at an address. Returns `Err` only if memory runs out.
pub fn listed(alloc: Global, a: u32, word: u32) -> Result<Vec<u8>, AllocError>
    ensures { IfOk result (λ note. note.items ≡ spec.listed a word) }
{
    let mut head = Note::new();
    push_word(&mut head, a);
    head.push_str(": ");
    let instruction = instruction_line(alloc, word)?;
    let mut note = Vec::from_slice(alloc, head.as_str().as_bytes())?;
    note.extend_from_slice(&instruction)?;
    Ok(note)
}

/// The instruction of a word, and a newline. Returns `Err` only if memory runs out.
fn instruction_line(alloc: Global, word: u32) -> Result<Vec<u8>, AllocError>
    ensures { IfOk result (λ line. line.items ≡ spec.instruction_text (decoded word) ++ codes "\n") }
{
    match disassemble(word) {
        None => Vec::from_slice(alloc, b"no instruction\n"),
        Some(line) => statement_line(alloc, &line),
    }
}

/// The statement of a line, and a newline. Returns `Err` only if memory runs out.
fn statement_line(alloc: Global, line: &Line) -> Result<Vec<u8>, AllocError>
    ensures { IfOk result (λ text. text.items ≡ statement_text (statement_of line.now.statement) ++ codes "\n") }
{
    let mut text = print_statement(alloc, &line.statement)?;
    text.push(b'\n')?;
    Ok(text)
}

/// Adds the result of a load.
fn push_loaded(note: &mut Note, loaded: Result<u32, MemFault>)
    requires { array_string_len note.old + 17 ≤ 302 }
    ensures bytes { note.new.bytes ≡ note.old.bytes ++ spec.loaded_text loaded }
    ensures len { array_string_len note.new ≤ array_string_len note.old + 17 }
{
    match loaded {
        Ok(word) => push_word(note, word),
        Err(MemFault::BadAddress(_)) => note.push_str("bad address"),
        Err(MemFault::Unaligned(_)) => note.push_str("unaligned address"),
    }
}

/// Adds a space and the digits of a word.
fn push_spaced(note: &mut Note, word: u32)
    requires { array_string_len note.old + 9 ≤ 302 }
    ensures bytes { note.new.bytes ≡ note.old.bytes ++ spec.spaced word }
    ensures len { array_string_len note.new ≡ array_string_len note.old + 9 }
{
    note.push_str(" ");
    note.push_str(hexadecimal_digits(word).as_str());
}

/// Adds a word or an address.
fn push_word(note: &mut Note, word: u32)
    requires { array_string_len note.old + 10 ≤ 302 }
    ensures bytes { note.new.bytes ≡ note.old.bytes ++ spec.word_text word }
    ensures len { array_string_len note.new ≡ array_string_len note.old + 10 }
{
    note.push_str("0x");
    note.push_str(hexadecimal_digits(word).as_str());
}

/// Adds a number in decimal.
fn push_decimal(note: &mut Note, number: u64)
    requires { array_string_len note.old + 40 ≤ 302 }
    ensures bytes { note.new.bytes ≡ note.old.bytes ++ decimal number }
    ensures len { array_string_len note.new ≤ array_string_len note.old + 40 }
{
    let mut buffer = Buffer::new();
    note.push_str(buffer.format(number));
}
