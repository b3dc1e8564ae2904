//! The command `debug`: compiles a program and runs it under the debugger, which executes the commands of a script.

ghost use Rattle.std.specs.Prelude.{◌≡◌, ◌≢◌, ◌<◌, ◌≤◌, ℕ, List, Bool, false, length, IfErr, IfOk, None, OnOk, Ok, true, [], ◌∷◌, ◌++◌};
ghost use Rattle.std.specs.List.{list_all};
ghost use Rattle.cool_emit.specs.Programs.{program_lines};
ghost use Rattle.cool_ports.specs.Answers.{Leaves};
ghost use Rattle.cool_ports.specs.ShelfFiles.{AskedFront};
ghost use Rattle.cool_ports.specs.Taking.{Took};
ghost use Rattle.cool_rules.specs.Fits.{Fits};
ghost use Rattle.cool_words.specs.Plans.{IsBounded, is_file_name, words_of};
ghost use Rattle.mips_isa.specs.Assembly.{fault_of, image_of};
ghost use Rattle.mips_isa.specs.Lines.{lines_of, AreInRange};
ghost use Rattle.spim_debug.specs.Debugging.{IsScriptFor};
ghost use Rattle.cool_driver.specs.Calls.{Request, shelf_use, sink_use};
ghost use Rattle.cool_driver.specs.Debugging.{commands_for};
ghost use Rattle.cool_driver.specs.Does.{Does};
ghost use Rattle.cool_driver.specs.Does.{Goes};
ghost use Rattle.cool_driver.specs.Outside.{outside, shelf_at, sink_at, source_at};
ghost use Rattle.cool_driver.specs.Sources.{EndsWith, unless_too_many};
ghost use Rattle.cool_driver.specs.Refusals.{AreFaultLines, IsTold};
ghost use Rattle.cool_driver.specs.Statuses.{REFUSED, code_of};
ghost use Rattle.cool_driver.specs.Telling.{PutsLines};
ghost use Rattle.cool_driver.specs.commands.Debug.{Debugs, IsDebuggee, IsDueToScript, IsDueUnscripted, IsNoDebuggee, ScriptIsRead, debugging};

use crate::execution::{machine_limits, tell_halt};
use crate::notes::{TOO_MANY_FILES, script_note};
use crate::refusal::{Refusal, refuse_by_line, refuse_unread, tell_refusal};
use crate::sources::read_program;
use crate::status::Status;
use cool_emit::lines;
use cool_ports::{Shelf, ShelfFault, Sink, Source};
use cool_rules::TypedProgram;
use cool_syntax::MOST_FILES;
use cool_words::RunLimits;
use mips_asm::assemble;
use mips_isa::{AsmError, Image, Line};
use spim_debug::{DebugCommand, DebugEnd, MOST_SCRIPT_BYTES, ScriptError, debug, read_script};
use std::alloc::{AllocError, Global};

/// The image of the debugged program, and the commands of the script.
#[derive(Drop)]
struct Scripted {
    image: Image,
    commands: Vec<DebugCommand>,
}

/// Compiles the program that the files of these names are, and runs that within limits under the debugger, as the script of this name
/// says, or writes why not. The script is read before the files.
pub fn debug_files<F: Shelf, I: Source, O: Sink, E: Sink>(
    alloc: Global,
    limits: RunLimits,
    script: &str,
    names: &[String],
    files: &mut F,
    input: &mut I,
    out: &mut O,
    notes: &mut E,
) -> Status
    requires some { 0 < length names.now }
    requires names { list_all is_file_name (words_of names.now) ≡ true }
    requires limits { IsBounded limits }
    ensures { Does (debugging script.now (words_of names.now) limits)
        (outside (shelf_at F.Shelf files.old) (source_at I.Source input.old) (sink_at O.Sink out.old) (sink_at E.Sink notes.old))
        (outside (shelf_at F.Shelf files.new) (source_at I.Source input.new) (sink_at O.Sink out.new) (sink_at E.Sink notes.new)) (code_of result) }
{
    match read_debuggee(alloc, script, names, files) {
        Ok(scripted) => {
            debug_image(
                alloc,
                limits,
                &scripted.image,
                &scripted.commands,
                input,
                out,
                notes,
            )
        }
        Err(refusal) => tell_refusal(notes, &refusal),
    }
}

/// The image of the program that the files of these names are, and what the script of this name says for it, or why nothing is debugged.
fn read_debuggee<F: Shelf>(
    alloc: Global,
    script: &str,
    names: &[String],
    files: &mut F,
) -> Result<Scripted, Refusal>
    requires some { 0 < length names.now }
    requires names { list_all is_file_name (words_of names.now) ≡ true }
    ensures kept { F.files files.new ≡ F.files files.old }
    ensures asked { AskedFront (unless_too_many (words_of names.now) (script.now ∷ words_of names.now)) (F.asked files.old) (F.asked files.new) }
    ensures count { F.faults files.old ≤ F.faults files.new }
    ensures debuggee { IfOk result (λ x. IsDebuggee script.now (words_of names.now) (shelf_use F.Shelf files.old files.new) x.image x.commands.items) }
    ensures script { IfOk result (λ x. IsScriptFor x.image.text x.commands.items) }
    ensures refused { IfErr result (IsTold (IsNoDebuggee script.now (words_of names.now) (shelf_use F.Shelf files.old files.new))) }
    ensures lined { IfErr result (AreFaultLines (words_of names.now) (shelf_use F.Shelf files.old files.new)) }
{
    if names.len() > MOST_FILES {
        return Err(refuse_by_line(alloc, Status::FileFault, TOO_MANY_FILES));
    }
    match read_bytes(alloc, script, files) {
        Ok(bytes) => read_scripted(alloc, script, &bytes, names, files),
        Err(refusal) => Err(refusal),
    }
}

/// The bytes of the script of this name, or why it was not read.
fn read_bytes<F: Shelf>(alloc: Global, script: &str, files: &mut F) -> Result<Vec<u8>, Refusal>
    ensures kept { F.files files.new ≡ F.files files.old }
    ensures asked { F.asked files.new ≡ F.asked files.old ++ script.now ∷ [] }
    ensures count { F.faults files.old ≤ F.faults files.new }
    ensures calm { OnOk result (F.faults files.new ≡ F.faults files.old) }
    ensures gave { IfOk result (λ bytes. F.gave files.new ≡ F.gave files.old ++ bytes.items ∷ []) }
    ensures read { IfOk result (λ bytes. ScriptIsRead (shelf_use F.Shelf files.old files.new) script.now bytes.items) }
    ensures refused { IfErr result (IsTold (IsDueUnscripted (shelf_use F.Shelf files.old files.new) script.now)) }
{
    match files.read(alloc, script, MOST_SCRIPT_BYTES) {
        Ok(bytes) => Ok(bytes),
        Err(fault) => match fault {
            ShelfFault::Memory => Err(Refusal::Memory),
            _ => Err(refuse_unread(alloc, script, fault)),
        },
    }
}

/// The same where the script was read, and has these bytes.
fn read_scripted<F: Shelf>(
    alloc: Global,
    script: &str,
    bytes: &[u8],
    names: &[String],
    files: &mut F,
) -> Result<Scripted, Refusal>
    requires some { 0 < length names.now }
    requires names { list_all is_file_name (words_of names.now) ≡ true }
    requires read { ScriptIsRead (shelf_use F.Shelf files.old files.old) script.now bytes.now }
    requires gave { EndsWith (bytes.now ∷ []) (F.gave files.old) }
    ensures kept { F.files files.new ≡ F.files files.old }
    ensures asked { AskedFront (unless_too_many (words_of names.now) (words_of names.now)) (F.asked files.old) (F.asked files.new) }
    ensures count { F.faults files.old ≤ F.faults files.new }
    ensures debuggee { IfOk result (λ x. IsDebuggee script.now (words_of names.now) (shelf_use F.Shelf files.old files.new) x.image x.commands.items) }
    ensures script { IfOk result (λ x. IsScriptFor x.image.text x.commands.items) }
    ensures refused { IfErr result (IsTold (IsNoDebuggee script.now (words_of names.now) (shelf_use F.Shelf files.old files.new))) }
    ensures lined { IfErr result (AreFaultLines (words_of names.now) (shelf_use F.Shelf files.old files.new)) }
{
    match read_program(alloc, names, files) {
        Ok(program) => script_program(alloc, script, bytes, names, &program),
        Err(refusal) => Err(refusal),
    }
}

/// The image of a program whose files have these names, and what the script of this name and these bytes says for it, or its fault.
fn script_program(
    alloc: Global,
    script: &str,
    bytes: &[u8],
    names: &[String],
    program: &TypedProgram,
) -> Result<Scripted, Refusal>
    requires fits { Fits program.now (length names.now) }
    requires names { list_all is_file_name (words_of names.now) ≡ true }
    requires small { length bytes.now ≤ MOST_SCRIPT_BYTES }
    ensures image { IfOk result (λ x. x.image ≡ image_of (program_lines program.now (words_of names.now))) }
    ensures says { IfOk result (λ x. commands_for program.now (words_of names.now) bytes.now ≡ Ok x.commands.items) }
    ensures script { IfOk result (λ x. IsScriptFor x.image.text x.commands.items) }
    ensures refused { IfErr result (IsTold (IsDueToScript script.now bytes.now (words_of names.now) program.now)) }
{
    let lines = lines(alloc, program, names)?;
    match read_script(alloc, bytes, &lines) {
        Ok(commands) => Ok(Scripted {
            image: assemble_lines(alloc, &lines)?,
            commands,
        }),
        Err(ScriptError::Fault(fault)) => {
            let note = script_note(alloc, script, fault)?;
            Err(refuse_by_line(alloc, Status::Unfit, &note))
        }
        Err(ScriptError::Memory) => Err(Refusal::Memory),
    }
}

/// The image of lines that have no fault. Returns `Err` only if memory runs out.
fn assemble_lines(alloc: Global, lines: &[Line]) -> Result<Image, AllocError>
    requires few { length lines.now < 4294967292 }
    requires ranges { AreInRange (lines_of lines.now) }
    requires no_fault { fault_of (lines_of lines.now) ≡ None }
    ensures { IfOk result (λ image. image ≡ image_of (lines_of lines.now)) }
{
    match assemble(alloc, lines) {
        Ok(image) => Ok(image),
        Err(AsmError::Memory) => Err(AllocError),
        Err(AsmError::Fault(_)) => unreachable!(),
    }
}

/// Runs an image over the input within limits under the debugger, which does what the commands say, and writes how the run ended.
fn debug_image<I: Source, O: Sink, E: Sink>(
    alloc: Global,
    limits: RunLimits,
    image: &Image,
    commands: &[DebugCommand],
    input: &mut I,
    out: &mut O,
    notes: &mut E,
) -> Status
    requires bounded { IsBounded limits }
    requires script { IsScriptFor image.now.text commands.now }
    ensures lines { PutsLines (E.puts notes.old) (E.puts notes.new) }
    ensures other { code_of result ≢ REFUSED }
    ensures taken { (ended : Bool) × Took false ended (I.past input.old) (I.past input.new) (I.left input.old) (I.left input.new) }
    ensures ends { (r : Request) (rest : List ℕ) → r.faults_after ≡ r.faults_before
        → Leaves (I.past input.old) (I.past input.new) r.input rest → Goes (Debugs limits image.now commands.now) (record {
          request = r;
          out = sink_use O.Sink out.old out.new;
          notes = sink_use E.Sink notes.old notes.new;
          left = rest;
          input_before = I.faults input.old;
          input_after = I.faults input.new;
        }) (code_of result) }
{
    let machine = machine_limits(limits);
    match debug(
        alloc,
        image,
        machine,
        limits.steps,
        commands,
        input,
        out,
        notes,
    ) {
        DebugEnd::Halt(halt) => tell_halt(notes, halt),
        DebugEnd::NoteFault => Status::WriteFault,
        DebugEnd::Memory => Status::Memory,
    }
}
