//! The command `exec`: runs an image file, or assembles and runs a file of assembly text.

ghost use Rattle.std.specs.Prelude.{◌≡◌, ◌≤◌, false, length, IfErr, IfOk, string_bytes, true, [], ◌∷◌};
ghost use Rattle.cool_ports.specs.ShelfFiles.{AskedFront};
ghost use Rattle.cool_words.specs.Plans.{IsBounded};
ghost use Rattle.cool_driver.specs.Calls.{shelf_use};
ghost use Rattle.cool_driver.specs.Does.{Does};
ghost use Rattle.cool_driver.specs.Execution.{IsRunnable, is_text_file};
ghost use Rattle.cool_driver.specs.Outside.{outside, shelf_at, sink_at, source_at};
ghost use Rattle.cool_driver.specs.declared.TheConstants.{MOST_IMAGE_BYTES};
ghost use Rattle.cool_driver.specs.Refusals.{IsTold};
ghost use Rattle.cool_driver.specs.Statuses.{code_of};
ghost use Rattle.cool_driver.specs.commands.Exec.{AssemblesText, IsDueToBytes, IsLoaded, IsNoImage, executing};

use crate::MOST_IMAGE_BYTES;
use crate::execution::execute;
use crate::notes::{asm_note, image_note};
use crate::refusal::{Refusal, refuse_by_line, tell_refusal};
use crate::sources::read_sources;
use crate::status::Status;
use cool_ports::{Shelf, Sink, Source};
use cool_words::RunLimits;
use mips_asm::assemble;
use mips_image::read_image;
use mips_isa::{AsmError, Image};
use mips_text::read_asm;
use std::alloc::{AllocError, Global};

/// The first byte of an image. No text of assembly begins with it.
const IMAGE_START: u8 = 127;

/// Runs what the file of this name stands for within limits, or writes why it stands for nothing.
pub fn execute_file<F: Shelf, I: Source, O: Sink, E: Sink>(
    alloc: Global,
    limits: RunLimits,
    file: String,
    files: &mut F,
    input: &mut I,
    out: &mut O,
    notes: &mut E,
) -> Status
    requires { IsBounded limits }
    ensures { Does (executing (string_bytes file) limits)
        (outside (shelf_at F.Shelf files.old) (source_at I.Source input.old) (sink_at O.Sink out.old) (sink_at E.Sink notes.old))
        (outside (shelf_at F.Shelf files.new) (source_at I.Source input.new) (sink_at O.Sink out.new) (sink_at E.Sink notes.new)) (code_of result) }
{
    match load_file(alloc, file, files) {
        Ok(image) => execute(alloc, limits, &image, input, out, notes),
        Err(refusal) => tell_refusal(notes, &refusal),
    }
}

/// The image that the file of this name stands for, or why it stands for none.
fn load_file<F: Shelf>(alloc: Global, file: String, files: &mut F) -> Result<Image, Refusal>
    ensures kept { F.files files.new ≡ F.files files.old }
    ensures asked { AskedFront (string_bytes file ∷ []) (F.asked files.old) (F.asked files.new) }
    ensures count { F.faults files.old ≤ F.faults files.new }
    ensures image { IfOk result (IsLoaded (shelf_use F.Shelf files.old files.new) (string_bytes file)) }
    ensures refused { IfErr result (IsTold (IsNoImage (shelf_use F.Shelf files.old files.new) (string_bytes file))) }
{
    let names = vec![in alloc; file]?;
    match read_sources(alloc, &names, MOST_IMAGE_BYTES, files) {
        Ok(contents) => load(alloc, names[0].as_str(), &contents[0]),
        Err(refusal) => Err(refusal),
    }
}

/// The image that a file of this name and these bytes stands for, or why it stands for none.
fn load(alloc: Global, name: &str, bytes: &[u8]) -> Result<Image, Refusal>
    requires { length bytes.now ≤ MOST_IMAGE_BYTES }
    ensures image { IfOk result (λ image. IsRunnable image bytes.now) }
    ensures refused { IfErr result (IsTold (IsDueToBytes name.now bytes.now)) }
{
    if bytes.first() == Some(&IMAGE_START) {
        load_image(alloc, name, bytes)
    } else {
        load_text(alloc, name, bytes)
    }
}

/// The image that bytes are, or why they are none.
fn load_image(alloc: Global, name: &str, bytes: &[u8]) -> Result<Image, Refusal>
    requires { is_text_file bytes.now ≡ false }
    ensures image { IfOk result (λ image. IsRunnable image bytes.now) }
    ensures refused { IfErr result (IsTold (IsDueToBytes name.now bytes.now)) }
{
    match read_image(alloc, bytes) {
        Ok(stored) => Ok(stored.image),
        Err(fault) => {
            let note = image_note(alloc, name, fault)?;
            Err(refuse_by_line(alloc, Status::Unfit, &note))
        }
    }
}

/// The image of a text of assembly, or its first fault.
fn load_text(alloc: Global, name: &str, bytes: &[u8]) -> Result<Image, Refusal>
    requires text { is_text_file bytes.now ≡ true }
    requires small { length bytes.now ≤ MOST_IMAGE_BYTES }
    ensures image { IfOk result (λ image. IsRunnable image bytes.now) }
    ensures refused { IfErr result (IsTold (IsDueToBytes name.now bytes.now)) }
{
    match assemble_text(alloc, bytes) {
        Ok(image) => Ok(image),
        Err(AsmError::Fault(fault)) => {
            let note = asm_note(alloc, name, fault)?;
            Err(refuse_by_line(alloc, Status::Unfit, &note))
        }
        Err(AsmError::Memory) => Err(Refusal::Memory),
    }
}

/// The image of a text of assembly.
fn assemble_text(alloc: Global, bytes: &[u8]) -> Result<Image, AsmError>
    requires { length bytes.now ≤ MOST_IMAGE_BYTES }
    ensures { AssemblesText bytes.now result }
{
    match read_asm(alloc, bytes) {
        Ok(lines) => assemble(alloc, &lines),
        Err(error) => Err(error),
    }
}
