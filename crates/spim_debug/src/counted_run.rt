//! A run of the machine that counts the bytes of its output.

ghost use Rattle.std.specs.Prelude.{◌≡◌, ◌≤◌, List, ℕ, Option, Some, None};
ghost use Rattle.cool_ports.specs.Taking.{Took, OfAnyInput};
ghost use Rattle.mips_isa.specs.Calls.{State};
ghost use Rattle.mips_isa.specs.Run.{run};
ghost use Rattle.spim_memory.specs.Memory.{segments};
ghost use Rattle.spim_cpu.specs.Cpu.{KeepsSegments};
ghost use Rattle.spim_machine.specs.MachineStates.{IsIn, halted_by};
ghost use Rattle.spim_machine.specs.Ends.{Counted};
ghost use Rattle.spim_machine.specs.Counting.{RanTo};
ghost use Rattle.spim_machine.specs.Puts.{output_of};
ghost use Rattle.spim_debug.specs.ByteCounts.{GrewBy};

use crate::counting_sink::CountingSink;
use cool_ports::{Sink, Source};
use spim_cpu::Breaks;
use spim_machine::{Halt, Machine, Stopped, law_possible_inputs, law_puts_are_output};

/// The stop of a run, and the number of bytes that it put, up to the largest number.
#[derive(Clone, Copy)]
pub struct CountedRun {
    pub stopped: Stopped,
    pub bytes: u64,
}

/// Runs a machine as its `run_to` does, and counts the bytes that it puts.
pub fn run_counted<B: Breaks, S: Source, K: Sink>(
    machine: &mut Machine,
    budget: u64,
    breaks: &B,
    source: &mut S,
    sink: &mut K,
) -> CountedRun
    ensures took { machine.old.halted ≡ None → Took machine.old.ended machine.new.ended (S.past source.old) (S.past source.new) (S.left source.old) (S.left source.new) }
    ensures ran { (first : Option (List ℕ)) (s : State) → machine.old.halted ≡ None → OfAnyInput (S.past source.old) (S.past source.new) (λ input rest. IsIn first s machine.old input (K.held sink.old)
        → RanTo (B.holds breaks.now) machine.old.cpu.memory.text (segments machine.old.cpu.memory) budget s first result.stopped machine.new rest (K.held sink.new)) }
    ensures bytes { (first : Option (List ℕ)) (s : State) → machine.old.halted ≡ None → OfAnyInput (S.past source.old) (S.past source.new) (λ input rest. IsIn first s machine.old input (K.held sink.old)
        → GrewBy result.stopped.halt s.output (output_of (run machine.old.cpu.memory.text (segments machine.old.cpu.memory) result.stopped.executed s)) result.bytes) }
    ensures counts { machine.old.halted ≡ None → Counted result.stopped.halt (S.faults source.old) (S.faults source.new) (K.faults sink.old) (K.faults sink.new) }
    ensures halted { machine.old.halted ≡ None → machine.new.halted ≡ halted_by result.stopped.halt }
    ensures memory { KeepsSegments machine.old.cpu.memory machine.new.cpu.memory }
    ensures most { result.stopped.executed ≤ budget }

    // After an end.
    ensures again { (halt : Halt) → machine.old.halted ≡ Some halt → result ≡ record { stopped = record { halt = halt; executed = 0 }; bytes = 0 } }
    ensures machine { (halt : Halt) → machine.old.halted ≡ Some halt → machine.new ≡ machine.old }
    ensures source { (halt : Halt) → machine.old.halted ≡ Some halt → source.new ≡ source.old }
    ensures sink { (halt : Halt) → machine.old.halted ≡ Some halt → sink.new ≡ sink.old }
{
    law_possible_inputs();
    law_puts_are_output();
    let mut counting = CountingSink::new(sink);
    let stopped = machine.run_to(budget, breaks, source, &mut counting);
    CountedRun {
        stopped,
        bytes: counting.bytes(),
    }
}
