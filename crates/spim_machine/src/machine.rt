//! The machine: a processor with the state of its system calls, and the functions that run it.

ghost use Rattle.std.specs.Prelude.{◌≡◌, ◌≤◌, List, ℕ, Option, Some, None, [], IfOk};
ghost use Rattle.mips_isa.specs.Bytes.{segments_of};
ghost use Rattle.mips_isa.specs.Calls.{State};
ghost use Rattle.mips_isa.specs.Run.{start};
ghost use Rattle.spim_memory.specs.Memory.{segments, IsLimits};
ghost use Rattle.cool_ports.specs.Taking.{Took, OfAnyInput};
ghost use Rattle.spim_machine.specs.MachineStates.{state_of, IsIn, Keeps, halted_by};
ghost use Rattle.spim_machine.specs.Ends.{Counted, CountedIf, Cycled, Ran};
ghost use Rattle.spim_machine.specs.Counting.{RanTo};
ghost use Rattle.spim_machine.specs.Puts.{PutBy, PutIf, PutWithin, cycle_puts, run_puts};
ghost use Rattle.spim_cpu.specs.Cpu.{core_of, KeepsSegments};

mod calls;

use crate::{Halt, Stopped};
use cool_ports::{Sink, Source};
use mips_isa::{HEAP_START, Image};
use spim_cpu::{Breaks, Cpu, NoBreaks, Step, contains};
use spim_memory::{Limits, Memory};
use std::alloc::{AllocError, Global};
use std::marker::Model;

/// A processor, the end of what `sbrk` gave, whether the end of the input was answered, and how the last run ended, unless
/// it may go on.
#[derive(Drop)]
pub struct Machine {
    cpu: Cpu,
    heap_break: u32,
    ended: bool,
    halted: Option<Halt>,
}

impl Model for Machine {
    ghost use Rattle.spim_machine.specs.MachineStates.{MachineParts};

    ghost Value = { MachineParts };

    ghost view = { λ m. record { cpu = m.cpu; heap_break = m.heap_break; ended = m.ended; halted = m.halted } };
}

impl Machine {
    /// A machine at the start of a run of this image.
    ///
    /// All memory of its runs is taken here: the text, the data padded with zeros to a word, heap and stack. Returns `Err` only if memory runs out.
    pub fn load(alloc: Global, image: &Image, limits: Limits) -> Result<Machine, AllocError>
        requires limits { IsLimits limits.heap limits.stack }
        ensures state { IfOk result (λ machine. (input : List ℕ) → state_of machine input [] ≡ start image.now (segments_of image.now limits.heap limits.stack) input) }
        ensures text { IfOk result (λ machine. machine.cpu.memory.text ≡ image.now.text) }
        ensures segments { IfOk result (λ machine. segments machine.cpu.memory ≡ segments_of image.now limits.heap limits.stack) }
        ensures goes_on { IfOk result (λ machine. machine.halted ≡ None) }
    {
        let memory = Memory::make(alloc, image, limits)?;
        Ok(Machine {
            cpu: Cpu::new(memory, image, limits),
            heap_break: HEAP_START,
            ended: false,
            halted: None,
        })
    }

    /// The processor and its memory, in the state of the run.
    pub fn cpu(&self) -> &Cpu
        ensures { result.now ≡ self.now.cpu }
    {
        &self.cpu
    }

    /// Executes at most `budget` instructions, with the system calls that they are. It takes no memory.
    ///
    /// Returns `Exit` and `Trap` exactly as the definition of the machine ends, and `StepLimit` exactly if it has not ended after `budget` instructions; a
    /// further run goes on from there. Returns `ReadFault` at the first `take` that fails, and `WriteFault` at the first `put` that fails: then pc stands
    /// after the call, and registers and memory are as the call found them, except that the bytes of a string that came before the fault are stored. After
    /// each of them except `StepLimit` a further run returns the same, and touches nothing.
    pub fn run<S: Source, K: Sink>(&mut self, budget: u64, source: &mut S, sink: &mut K) -> Halt
        // The input that it takes of the source, and its end, from any state that the machine is in. The input is any that begins with what was taken, and
        // is no more than that if the end was answered.
        ensures took { self.old.halted ≡ None → Took self.old.ended self.new.ended (S.past source.old) (S.past source.new) (S.left source.old) (S.left source.new) }
        ensures ran { (first : Option (List ℕ)) (s : State) → self.old.halted ≡ None → OfAnyInput (S.past source.old) (S.past source.new) (λ input rest. IsIn first s self.old input (K.held sink.old)
            → Ran self.old.cpu.memory.text (segments self.old.cpu.memory) budget s first result self.new rest (K.held sink.new)) }
        ensures puts { (first : Option (List ℕ)) (s : State) → self.old.halted ≡ None → OfAnyInput (S.past source.old) (S.past source.new) (λ input rest. IsIn first s self.old input (K.held sink.old)
            → PutWithin result (run_puts self.old.cpu.memory.text (segments self.old.cpu.memory) budget s) (K.puts sink.old) (K.puts sink.new)) }
        ensures counts { self.old.halted ≡ None → Counted result (S.faults source.old) (S.faults source.new) (K.faults sink.old) (K.faults sink.new) }
        ensures halted { self.old.halted ≡ None → self.new.halted ≡ halted_by result }
        ensures memory { KeepsSegments self.old.cpu.memory self.new.cpu.memory }

        // After an end.
        ensures again { (halt : Halt) → self.old.halted ≡ Some halt → result ≡ halt }
        ensures machine { (halt : Halt) → self.old.halted ≡ Some halt → self.new ≡ self.old }
        ensures source { (halt : Halt) → self.old.halted ≡ Some halt → source.new ≡ source.old }
        ensures sink { (halt : Halt) → self.old.halted ≡ Some halt → sink.new ≡ sink.old }
    {
        self.run_to(budget, &NoBreaks, source, sink).halt
    }

    /// Executes an instruction, if the budget has one, and goes on until pc is a break address, as `run` does. It takes no memory.
    ///
    /// It also returns the number of instructions executed, including the one that exits or traps, or whose call fails; after an end of an earlier run
    /// there is none.
    pub fn run_to<B: Breaks, S: Source, K: Sink>(
        &mut self,
        budget: u64,
        breaks: &B,
        source: &mut S,
        sink: &mut K,
    ) -> Stopped
        // The input that it takes of the source, its stop, and the number of instructions, from any state that the machine is in. The input is any that
        // begins with what was taken, and is no more than that if the end was answered.
        ensures took { self.old.halted ≡ None → Took self.old.ended self.new.ended (S.past source.old) (S.past source.new) (S.left source.old) (S.left source.new) }
        ensures ran { (first : Option (List ℕ)) (s : State) → self.old.halted ≡ None → OfAnyInput (S.past source.old) (S.past source.new) (λ input rest. IsIn first s self.old input (K.held sink.old)
            → RanTo (B.holds breaks.now) self.old.cpu.memory.text (segments self.old.cpu.memory) budget s first result self.new rest (K.held sink.new)) }
        ensures puts { (first : Option (List ℕ)) (s : State) → self.old.halted ≡ None → OfAnyInput (S.past source.old) (S.past source.new) (λ input rest. IsIn first s self.old input (K.held sink.old)
            → PutBy result.halt (run_puts self.old.cpu.memory.text (segments self.old.cpu.memory) result.executed s) (K.puts sink.old) (K.puts sink.new)) }
        ensures counts { self.old.halted ≡ None → Counted result.halt (S.faults source.old) (S.faults source.new) (K.faults sink.old) (K.faults sink.new) }
        ensures halted { self.old.halted ≡ None → self.new.halted ≡ halted_by result.halt }
        ensures memory { KeepsSegments self.old.cpu.memory self.new.cpu.memory }
        ensures most { result.executed ≤ budget }

        // After an end.
        ensures again { (halt : Halt) → self.old.halted ≡ Some halt → result ≡ record { halt = halt; executed = 0 } }
        ensures machine { (halt : Halt) → self.old.halted ≡ Some halt → self.new ≡ self.old }
        ensures source { (halt : Halt) → self.old.halted ≡ Some halt → source.new ≡ source.old }
        ensures sink { (halt : Halt) → self.old.halted ≡ Some halt → sink.new ≡ sink.old }
    {
        if let Some(halt) = self.halted {
            return Stopped { halt, executed: 0 };
        }
        let mut left = budget;
        while left > 0 {
            left -= 1;
            if let Err(halt) = self.cycle(source, sink) {
                self.halted = Some(halt);
                return Stopped {
                    halt,
                    executed: budget - left,
                };
            }
            left -= self.cpu.advance(left, breaks);
            if contains(breaks, self.cpu.pc()) {
                break;
            }
        }
        Stopped {
            halt: Halt::StepLimit,
            executed: budget - left,
        }
    }

    /// Executes an instruction, and the system call that it may be. Returns `Err` if the run ends.
    fn cycle<S: Source, K: Sink>(&mut self, source: &mut S, sink: &mut K) -> Result<(), Halt>
        ensures took { Took self.old.ended self.new.ended (S.past source.old) (S.past source.new) (S.left source.old) (S.left source.new) }
        ensures cycled { (first : Option (List ℕ)) (s : State) → OfAnyInput (S.past source.old) (S.past source.new) (λ before after. IsIn first s self.old before (K.held sink.old)
            → Cycled self.old.cpu.memory.text (segments self.old.cpu.memory) s first result self.new after (K.held sink.new)) }
        ensures puts { PutIf result (cycle_puts self.old.cpu.memory.text (segments self.old.cpu.memory) (core_of self.old.cpu)) (K.puts sink.old) (K.puts sink.new) }
        ensures counts { CountedIf result (S.faults source.old) (S.faults source.new) (K.faults sink.old) (K.faults sink.new) }
        ensures keeps { Keeps self.old self.new }
    {
        match self.cpu.step() {
            Step::Next => Ok(()),
            Step::Call => self.call(source, sink),
            Step::Trap(trap) => Err(Halt::Trap(trap)),
        }
    }
}
