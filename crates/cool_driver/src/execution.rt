//! Runs an image on the machine within limits of heap, stack and steps, and reports how the run ended.

ghost use Rattle.std.specs.Prelude.{◌≡◌, ◌≢◌, List, ℕ, Bool, false};
ghost use Rattle.cool_ports.specs.Answers.{Leaves};
ghost use Rattle.cool_ports.specs.Taking.{Took};
ghost use Rattle.cool_driver.specs.Calls.{Request, sink_use};
ghost use Rattle.cool_driver.specs.Comes.{Comes, PutAsDue};
ghost use Rattle.cool_driver.specs.Does.{Goes};
ghost use Rattle.cool_driver.specs.Execution.{heap_of, stack_of};
ghost use Rattle.cool_words.specs.Plans.{IsBounded};
ghost use Rattle.spim_memory.specs.Memory.{IsLimits};
ghost use Rattle.cool_driver.specs.Runs.{DueToRun, PiecesOfRun, puts_of_run};
ghost use Rattle.cool_driver.specs.Statuses.{REFUSED, code_of};
ghost use Rattle.cool_driver.specs.Telling.{HaltNoted, PutsLines};

use crate::notes::{HEAP_LIMIT, READ_FAULT, STACK_LIMIT, STEP_LIMIT, tell, trap_note};
use crate::status::Status;
use cool_ports::{Sink, Source};
use cool_words::RunLimits;
use mips_isa::Image;
use spim_machine::{Halt, Machine};
use spim_memory::Limits;
use std::alloc::{AllocError, Global};

/// The limits of a machine, in bytes.
pub fn machine_limits(limits: RunLimits) -> Limits
    requires { IsBounded limits }
    ensures heap { result.heap ≡ heap_of limits }
    ensures stack { result.stack ≡ stack_of limits }
    ensures fit { IsLimits result.heap result.stack }
{
    Limits {
        heap: limits.heap_kib * 1_024,
        stack: limits.stack_kib * 1_024,
    }
}

/// Runs an image over the input, and writes how its run ended.
pub fn execute<I: Source, O: Sink, E: Sink>(
    alloc: Global,
    limits: RunLimits,
    image: &Image,
    input: &mut I,
    out: &mut O,
    notes: &mut E,
) -> Status
    requires { IsBounded limits }
    ensures lines { PutsLines (E.puts notes.old) (E.puts notes.new) }
    ensures other { code_of result ≢ REFUSED }
    ensures taken { (ended : Bool) × Took false ended (I.past input.old) (I.past input.new) (I.left input.old) (I.left input.new) }
    ensures puts { (given rest : List ℕ) → Leaves (I.past input.old) (I.past input.new) given rest → PutAsDue (puts_of_run limits image.now given) (sink_use O.Sink out.old out.new) (code_of result) }
    ensures ends { (r : Request) (rest : List ℕ) → r.faults_after ≡ r.faults_before → Leaves (I.past input.old) (I.past input.new) r.input rest
        → Goes (Comes (DueToRun limits image.now r.input) (PiecesOfRun limits image.now r.input)) (record {
          request = r;
          out = sink_use O.Sink out.old out.new;
          notes = sink_use E.Sink notes.old notes.new;
          left = rest;
          input_before = I.faults input.old;
          input_after = I.faults input.new;
        }) (code_of result) }
{
    let Ok(mut machine) = Machine::load(alloc, image, machine_limits(limits)) else {
        return Status::Memory;
    };
    let halt = machine.run(limits.steps, input, out);
    tell_halt(notes, halt)
}

/// Writes how a machine halted, and answers its status, or that the write failed.
#[tactic(auto, using(crate::proofs::LinesOfNotes::no_lines), unfolding(crate::specs::Telling::ends_line))]
pub fn tell_halt<E: Sink>(notes: &mut E, halt: Halt) -> Status
    ensures noted { HaltNoted (sink_use E.Sink notes.old notes.new) halt result }
    ensures lines { PutsLines (E.puts notes.old) (E.puts notes.new) }
    ensures other { code_of result ≢ REFUSED }
{
    match halt {
        Halt::Exit(0) => Status::Done,
        Halt::Exit(4) => tell(notes, Status::HeapLimit, HEAP_LIMIT),
        Halt::Exit(5) => tell(notes, Status::StackLimit, STACK_LIMIT),
        Halt::Exit(_) => Status::Failed,
        Halt::Trap(trap) => tell(notes, Status::Trapped, trap_note(trap).as_str().as_bytes()),
        Halt::StepLimit => tell(notes, Status::StepLimit, STEP_LIMIT),
        Halt::ReadFault => tell(notes, Status::ReadFault, READ_FAULT),
        Halt::WriteFault => Status::WriteFault,
    }
}
