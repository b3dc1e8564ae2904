//! The command `run`: compiles source files and runs the image on the machine.

ghost use Rattle.std.specs.Prelude.{◌≡◌, ◌<◌, ◌≤◌, ℕ, length, IfErr, IfOk, true};
ghost use Rattle.std.specs.List.{list_all};
ghost use Rattle.cool_ports.specs.ShelfFiles.{AskedFront};
ghost use Rattle.cool_rules.specs.Fits.{Fits};
ghost use Rattle.cool_words.specs.Plans.{IsBounded, is_file_name, run_asked, words_of};
ghost use Rattle.cool_driver.specs.Calls.{shelf_use};
ghost use Rattle.cool_driver.specs.Compiled.{compiled_program};
ghost use Rattle.cool_driver.specs.Does.{Does};
ghost use Rattle.cool_driver.specs.Outside.{outside, shelf_at, sink_at, source_at};
ghost use Rattle.cool_driver.specs.Refusals.{AreFaultLines, IsTold};
ghost use Rattle.cool_driver.specs.Sources.{IsNoProgram, unless_too_many};
ghost use Rattle.cool_driver.specs.Statuses.{code_of};
ghost use Rattle.cool_driver.specs.commands.Run.{IsCompiledTo, running};

use crate::execution::execute;
use crate::refusal::{Refusal, tell_refusal};
use crate::sources::read_program;
use crate::status::Status;
use cool_emit::build;
use cool_ports::{Shelf, Sink, Source};
use cool_rules::TypedProgram;
use cool_words::RunPlan;
use mips_isa::Image;
use std::alloc::{AllocError, Global};

/// Compiles the program that the files of the plan are, or the folded program, and runs that within the plan's limits, or writes their
/// faults.
pub fn run_files<F: Shelf, I: Source, O: Sink, E: Sink>(
    alloc: Global,
    plan: &RunPlan,
    files: &mut F,
    input: &mut I,
    out: &mut O,
    notes: &mut E,
) -> Status
    requires some { 0 < length plan.now.files.items }
    requires names { list_all is_file_name (words_of plan.now.files.items) ≡ true }
    requires limits { IsBounded plan.now.limits }
    ensures { Does (running (run_asked plan.now))
        (outside (shelf_at F.Shelf files.old) (source_at I.Source input.old) (sink_at O.Sink out.old) (sink_at E.Sink notes.old))
        (outside (shelf_at F.Shelf files.new) (source_at I.Source input.new) (sink_at O.Sink out.new) (sink_at E.Sink notes.new)) (code_of result) }
{
    match compile_files(alloc, plan.fold, &plan.files, files) {
        Ok(image) => execute(alloc, plan.limits, &image, input, out, notes),
        Err(refusal) => tell_refusal(notes, &refusal),
    }
}

/// The image for the program that the files of these names are, with `fold` that of the folded program, or why they are none.
fn compile_files<F: Shelf>(
    alloc: Global,
    fold: bool,
    names: &[String],
    files: &mut F,
) -> Result<Image, Refusal>
    requires some { 0 < length names.now }
    requires names { list_all is_file_name (words_of names.now) ≡ true }
    ensures kept { F.files files.new ≡ F.files files.old }
    ensures asked { AskedFront (unless_too_many (words_of names.now) (words_of names.now)) (F.asked files.old) (F.asked files.new) }
    ensures count { F.faults files.old ≤ F.faults files.new }
    ensures image { IfOk result (IsCompiledTo fold (words_of names.now) (shelf_use F.Shelf files.old files.new)) }
    ensures refused { IfErr result (IsTold (IsNoProgram (shelf_use F.Shelf files.old files.new) (words_of names.now))) }
    ensures lined { IfErr result (AreFaultLines (words_of names.now) (shelf_use F.Shelf files.old files.new)) }
{
    match read_program(alloc, names, files) {
        Ok(program) => {
            let compiled = compiled_program(alloc, fold, program)?;
            Ok(build(alloc, &compiled, names)?)
        }
        Err(refusal) => Err(refusal),
    }
}

/// The program that is compiled: with `fold` the folded one. Returns `Err` only if memory runs out.
fn compiled_program(
    alloc: Global,
    fold: bool,
    program: TypedProgram,
) -> Result<TypedProgram, AllocError>
    ensures program { IfOk result (λ compiled. compiled ≡ compiled_program fold program) }
    ensures fits { (count : ℕ) → Fits program count → IfOk result (λ compiled. Fits compiled count) }
{
    if fold {
        cool_fold::fold(alloc, program)
    } else {
        Ok(program)
    }
}
