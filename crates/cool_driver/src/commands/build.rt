//! The commands `asm` and `build`: compile source files and write the assembly lines or the image to the output.

ghost use Rattle.std.specs.Prelude.{◌≡◌, ◌<◌, ◌≤◌, length, IfErr, IfOk, true};
ghost use Rattle.cool_ports.specs.ShelfFiles.{AskedFront};
ghost use Rattle.std.specs.List.{list_all};
ghost use Rattle.cool_rules.specs.Fits.{Fits};
ghost use Rattle.cool_words.specs.Plans.{is_file_name, words_of};
ghost use Rattle.cool_driver.specs.Calls.{shelf_use};
ghost use Rattle.cool_driver.specs.Does.{Does};
ghost use Rattle.cool_driver.specs.Outside.{SourceState, outside, shelf_at, sink_at};
ghost use Rattle.cool_driver.specs.Refusals.{AreFaultLines, IsTold};
ghost use Rattle.cool_driver.specs.Sources.{IsNoProgram, unless_too_many};
ghost use Rattle.cool_driver.specs.Statuses.{code_of};
ghost use Rattle.cool_driver.specs.commands.Build.{IsBuilt, built_bytes, building};

use crate::refusal::{Refusal, tell_refusal};
use crate::sources::read_program;
use crate::status::Status;
use crate::writing::write_pieces;
use cool_emit::{build, lines};
use cool_ports::{Shelf, Sink};
use cool_rules::TypedProgram;
use mips_image::{CHECKED_VERSION, write_image};
use mips_text::print_asm;
use std::alloc::Global;

/// The form in which a compiled program is written.
#[derive(Clone, Copy)]
pub enum Form {
    /// Assembly text.
    Text,
    /// An image.
    Image,
}

/// Writes the program that the files of these names are, in a form, or their faults.
pub fn build_files<F: Shelf, O: Sink, E: Sink>(
    alloc: Global,
    form: Form,
    names: &[String],
    files: &mut F,
    out: &mut O,
    notes: &mut E,
) -> Status
    requires some { 0 < length names.now }
    requires names { list_all is_file_name (words_of names.now) ≡ true }
    ensures { (input : SourceState)
        → Does (building form (words_of names.now)) (outside (shelf_at F.Shelf files.old) input (sink_at O.Sink out.old) (sink_at E.Sink notes.old))
        (outside (shelf_at F.Shelf files.new) input (sink_at O.Sink out.new) (sink_at E.Sink notes.new)) (code_of result) }
{
    match make_bytes(alloc, form, names, files) {
        Ok(bytes) => write_pieces(out, &bytes),
        Err(refusal) => tell_refusal(notes, &refusal),
    }
}

/// The bytes of the program that the files of these names are, in a form, or why they are none.
fn make_bytes<F: Shelf>(
    alloc: Global,
    form: Form,
    names: &[String],
    files: &mut F,
) -> Result<Vec<u8>, Refusal>
    requires some { 0 < length names.now }
    requires names { list_all is_file_name (words_of names.now) ≡ true }
    ensures kept { F.files files.new ≡ F.files files.old }
    ensures asked { AskedFront (unless_too_many (words_of names.now) (words_of names.now)) (F.asked files.old) (F.asked files.new) }
    ensures count { F.faults files.old ≤ F.faults files.new }
    ensures built { IfOk result (λ bytes. IsBuilt form (words_of names.now) (shelf_use F.Shelf files.old files.new) bytes.items) }
    ensures refused { IfErr result (IsTold (IsNoProgram (shelf_use F.Shelf files.old files.new) (words_of names.now))) }
    ensures lined { IfErr result (AreFaultLines (words_of names.now) (shelf_use F.Shelf files.old files.new)) }
{
    match read_program(alloc, names, files) {
        Ok(program) => write_program(alloc, form, &program, names),
        Err(refusal) => Err(refusal),
    }
}

/// The bytes of a program whose files have these names, in a form. Returns `Err` only if memory runs out.
fn write_program(
    alloc: Global,
    form: Form,
    program: &TypedProgram,
    names: &[String],
) -> Result<Vec<u8>, Refusal>
    requires fits { Fits program.now (length names.now) }
    requires names { list_all is_file_name (words_of names.now) ≡ true }
    ensures bytes { IfOk result (λ bytes. bytes.items ≡ built_bytes form program.now (words_of names.now)) }
    ensures memory { IfErr result (λ refusal. refusal ≡ Refusal.Memory) }
{
    match form {
        Form::Text => Ok(print_asm(alloc, &lines(alloc, program, names)?)?),
        Form::Image => { Ok(write_image(alloc, &build(alloc, program, names)?, CHECKED_VERSION)?) }
    }
}
