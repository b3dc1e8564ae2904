//! Evaluates a whole program, step by step, and returns how its run ended.

ghost use Rattle.std.specs.Prelude.{◌≡◌, ℕ, Bool, false, List, IfOk, codes, map, string_bytes};
ghost use Rattle.cool_ports.specs.Answers.{Leaves};
ghost use Rattle.cool_ports.specs.SinkPuts.{seen};
ghost use Rattle.cool_ports.specs.Taking.{Took};
ghost use Rattle.cool_classes.specs.Tables.{IsWholeTable};
ghost use Rattle.cool_eval.specs.Counts.{Counted, CountedEnd};
ghost use Rattle.cool_eval.specs.Ends.{Evaluates};
ghost use Rattle.cool_eval.specs.Puts.{PutByRun};
ghost use Rattle.cool_eval.specs.Ready.{AreLayouts, IsReady};
ghost use Rattle.cool_eval.specs.Running.{outcome_of, Ended};

use crate::ending::Ending;
use crate::machine::Machine;
use crate::report::finish;
use crate::scene::RunSetting;
use crate::step::{first, step};
use crate::store::Store;
use cool_classes::{AttributeRef, ClassId, ClassTable};
use cool_ports::{Sink, Source};
use cool_rules::TypedProgram;
use cool_syntax::Name;
use std::alloc::{AllocError, Global};

/// The end of a run.
#[derive(Clone, Copy)]
pub enum EvalEnd {
    /// The program ended.
    Done,
    /// It ended with a run-time error.
    Error,
    /// No step was left.
    StepLimit,
    /// A take failed.
    ReadFault,
    /// A put failed.
    WriteFault,
    /// Out of memory.
    Memory,
}

/// Runs a program, whose files have these names, with so many steps at most (the Cool manual, section 13), and writes its output and how it
/// ended: the line for a good end, or that of a run-time error.
///
/// What a step writes is put before the next step, in pieces of at most 64 bytes, and so is the last line. `ReadFault` and `WriteFault` come at
/// the first take or put that fails, and `Memory` where memory runs out; then all was put that was due before that point of the run.
pub fn evaluate<S: Source, K: Sink>(
    alloc: Global,
    program: &TypedProgram,
    names: &[String],
    steps: u64,
    source: &mut S,
    sink: &mut K,
) -> EvalEnd
    ensures took { (ended : Bool) × Took false ended (S.past source.old) (S.past source.new) (S.left source.old) (S.left source.new) }
    ensures ends { (input rest : List ℕ) → Leaves (S.past source.old) (S.past source.new) input rest
        → Evaluates program.now (map string_bytes names.now) input steps (K.held sink.old) result rest (K.held sink.new) }
    ensures puts { (input rest : List ℕ) → Leaves (S.past source.old) (S.past source.new) input rest
        → PutByRun program.now (map string_bytes names.now) input steps result rest (K.puts sink.old) (K.puts sink.new) }
    ensures counts { CountedEnd result (S.faults source.old) (S.faults source.new) (K.faults sink.old) (K.faults sink.new) }
{
    let table = program.table();
    let Ok(main) = Name::new(alloc, b"Main") else {
        return EvalEnd::Memory;
    };
    let Ok(method) = Name::new(alloc, b"main") else {
        return EvalEnd::Memory;
    };
    let Ok(layouts) = layouts(alloc, table) else {
        return EvalEnd::Memory;
    };
    let setting = RunSetting {
        alloc,
        table,
        layouts: layouts.as_slice(),
    };
    let end = run(&setting, &main, &method, steps, source, sink);
    finish(&setting, names, end, sink)
}

/// The attributes of all classes.
fn layouts(alloc: Global, table: &ClassTable) -> Result<Vec<Vec<AttributeRef>>, AllocError>
    ensures { IfOk result (λ found. AreLayouts table.now found.items) }
{
    let mut layouts = Vec::new(alloc);
    for class in 0..table.count() {
        layouts.push(table.attributes(alloc, ClassId(class))?)?;
    }
    Ok(layouts)
}

/// Runs to the end. Each step is compiled into its loop, so that focus and frame stay in the processor's registers.
#[inline(never)]
fn run<'a, S: Source, K: Sink>(
    setting: &RunSetting<'a>,
    main: &'a Name,
    method: &'a Name,
    steps: u64,
    source: &mut S,
    sink: &mut K,
) -> Result<(), Ending>
    requires ready { IsReady setting.now.table.now setting.now.layouts.now }
    requires main { main.now ≡ codes "Main" }
    requires method { method.now ≡ codes "main" }
    ensures took { (ended : Bool) × Took false ended (S.past source.old) (S.past source.new) (S.left source.old) (S.left source.new) }
    ensures ends { (input rest : List ℕ) → Leaves (S.past source.old) (S.past source.new) input rest
        → Ended (outcome_of setting.now.table.now input) steps (seen (K.held sink.old) (K.puts sink.old)) result rest (seen (K.held sink.new) (K.puts sink.new)) }
    ensures counts { Counted result (S.faults source.old) (S.faults source.new) (K.faults sink.old) (K.faults sink.new) }
{
    let alloc = setting.alloc;
    let mut machine = Machine {
        frames: Vec::new(alloc),
        store: Store::new(alloc),
        left: steps,
        ended: false,
    };
    let mut focus = first(setting, &mut machine, main, method)?;
    for _ in 0..u64::MAX {
        match step(setting, &mut machine, focus, source, sink)? {
            Some(next) => focus = next,
            None => return Ok(()),
        }
    }
    Err(Ending::Memory)
}
