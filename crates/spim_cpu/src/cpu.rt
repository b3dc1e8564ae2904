//! The processor of the simulator: its registers, its memory, and the execution of instructions.

ghost use Rattle.std.specs.Prelude.{◌≡◌, ◌<◌, ◌≤◌, ◌^◌};
ghost use Rattle.mips_isa.specs.Bytes.{segments_of, bytes_of_image};
ghost use Rattle.mips_isa.specs.Machine as machine;
ghost use Rattle.mips_isa.specs.Run.{start_core};
ghost use Rattle.spim_memory.specs.Memory.{segments, bytes_of, IsLimits};
ghost use Rattle.spim_cpu.specs.Cpu.{core_of, KeepsSegments, Stepped};
ghost use Rattle.spim_cpu.specs.Advancing.{Goes, word_index, is_past, is_stop};

mod access;
mod operate;

use crate::{Breaks, Step};
use access::trap_of;
use mips_isa::register::{GP, S6, S7, SP, ZERO};
use mips_isa::{HEAP_START, Image, Reg, STACK_END, TEXT_START};
use spim_memory::{Limits, Memory};
use std::marker::Model;

/// A processor and its memory.
#[derive(Drop)]
pub struct Cpu {
    registers: [u32; 32],
    hi: u32,
    lo: u32,
    pc: u32,
    memory: Memory,
}

impl Model for Cpu {
    ghost use Rattle.spim_cpu.specs.Cpu.{CpuParts, IsCpu};

    ghost Value = { CpuParts };

    ghost view = { λ c. record { registers = c.registers; hi = c.hi; lo = c.lo; pc = c.pc; memory = c.memory } };

    ghost invariant = { λ c. IsCpu c.registers };
}

/// A caller of `operate`: the loop that stops at no address.
struct Freely;

/// A caller of `operate`: the loop that stops at marks.
struct ToMark;

/// The index of the word of the text at an address; if there is no word, so large a number that the text has no such word.
#[inline(always)]
pub fn word_index(a: u32) -> usize
    ensures index { result ≡ word_index a }
    ensures fits { a < 2 ^ 32 }
{
    let offset = a.wrapping_sub(TEXT_START);
    (offset / 4 + offset % 4 * 0x4000_0000) as usize
}

impl Cpu {
    /// The processor at the start of a run: pc is the entry, `$gp` the heap's start, `$s7` its end, `$s6` the stack's lowest
    /// address and `$sp` its end; all else is 0. The memory is as `Memory::make` gives it for this image and these limits.
    pub fn new(memory: Memory, image: &Image, limits: Limits) -> Cpu
        requires limits { IsLimits limits.heap limits.stack }
        requires bytes { bytes_of memory ≡ bytes_of_image image.now }
        ensures core { core_of result ≡ start_core image.now (segments_of image.now limits.heap limits.stack) }
        ensures memory { result.memory ≡ memory }
    {
        let mut registers = [0; 32];
        registers[S6 as usize] = STACK_END - limits.stack;
        registers[S7 as usize] = HEAP_START + limits.heap;
        registers[GP as usize] = HEAP_START;
        registers[SP as usize] = STACK_END;
        Cpu {
            registers,
            hi: 0,
            lo: 0,
            pc: image.entry,
            memory,
        }
    }

    /// The value of a register.
    pub fn register(&self, r: Reg) -> u32
        ensures { result ≡ (core_of self.now).registers r }
    {
        self.registers[r.number() as usize]
    }

    /// Puts a number into a register. Setting `$zero` changes nothing.
    pub fn set_register(&mut self, r: Reg, v: u32)
        ensures core { core_of self.new ≡ record (core_of self.old) { registers = machine.set_register (core_of self.old).registers r v } }
        ensures memory { self.new.memory ≡ self.old.memory }
    {
        if r.number() != ZERO {
            self.registers[r.number() as usize] = v;
        }
    }

    /// The address of the next instruction.
    pub fn pc(&self) -> u32
        ensures { result ≡ self.now.pc }
    {
        self.pc
    }

    /// Its memory.
    pub fn memory(&self) -> &Memory
        ensures { result.now ≡ self.now.memory }
    {
        &self.memory
    }

    /// Executes the instruction at pc.
    ///
    /// A trap comes exactly if the instruction's row has one, or if no instruction is at pc, and changes nothing.
    #[inline(never)]
    pub fn step(&mut self) -> Step
        ensures stepped { Stepped (machine.step self.old.memory.text (segments self.old.memory) (core_of self.old)) result self.old self.new }
        ensures segments { KeepsSegments self.old.memory self.new.memory }
    {
        let pc = self.pc;
        let operation = match self.memory.operation(pc) {
            Ok(operation) => operation,
            Err(fault) => return Step::Trap(trap_of(fault, pc)),
        };
        match self.operate::<()>(&operation, pc) {
            Ok(next) => {
                self.pc = next;
                Step::Next
            }
            Err(Step::Call) => {
                self.pc += 4;
                Step::Call
            }
            Err(step) => step,
        }
    }

    /// Executes at most so many instructions, up to the first one that is a system call, traps or stands at a break address, and returns how many.
    ///
    /// It may stop earlier.
    #[inline(never)]
    pub fn advance<B: Breaks>(&mut self, most: u64, breaks: &B) -> u64
        ensures most { result ≤ most }
        ensures goes { Goes (B.holds breaks.now) self.old.memory.text (segments self.old.memory) result (core_of self.old) (core_of self.new) }
        ensures segments { KeepsSegments self.old.memory self.new.memory }
    {
        match breaks.marks() {
            None => self.advance_freely(most),
            Some(marks) => self.advance_to_mark(most, marks),
        }
    }

    /// Executes at most so many instructions, up to the first one that is a system call or traps, and returns how many.
    ///
    /// It may stop earlier.
    #[inline(never)]
    fn advance_freely(&mut self, most: u64) -> u64
        ensures most { result ≤ most }
        ensures goes { Goes is_past self.old.memory.text (segments self.old.memory) result (core_of self.old) (core_of self.new) }
        ensures segments { KeepsSegments self.old.memory self.new.memory }
    {
        let operations = self.memory.take_operations();
        let mut pc = self.pc;
        let mut left = most;
        while left > 0 {
            let Some(operation) = operations.get(word_index(pc)) else {
                break;
            };
            let Ok(next) = self.operate::<Freely>(operation, pc) else {
                break;
            };
            pc = next;
            left -= 1;
        }
        self.pc = pc;
        self.memory.put_operations(operations);
        most - left
    }

    /// Executes at most so many instructions, up to the first one that is a system call, traps, or has a mark that is set or none, and returns how many.
    ///
    /// It may stop earlier.
    #[inline(never)]
    fn advance_to_mark(&mut self, most: u64, marks: &[bool]) -> u64
        ensures most { result ≤ most }
        ensures goes { Goes (is_stop marks.now) self.old.memory.text (segments self.old.memory) result (core_of self.old) (core_of self.new) }
        ensures segments { KeepsSegments self.old.memory self.new.memory }
    {
        let operations = self.memory.take_operations();
        let marked = operations.len().min(marks.len());
        let mut pc = self.pc;
        let mut left = most;
        while left > 0 {
            let index = word_index(pc);
            if index >= marked || marks[index] {
                break;
            }
            let Ok(next) = self.operate::<ToMark>(&operations[index], pc) else {
                break;
            };
            pc = next;
            left -= 1;
        }
        self.pc = pc;
        self.memory.put_operations(operations);
        most - left
    }
}
