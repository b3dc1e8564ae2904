//! Debugger scripts: the commands that a script may have, and parsing a script.

ghost use Rattle.std.specs.Prelude.{◌≡◌, ◌-◌, ◌^◌, ◌<◌, ◌≤◌, length, IfOk, None};
ghost use Rattle.mips_isa.specs.Lines.{lines_of, AreInRange};
ghost use Rattle.mips_isa.specs.Assembly.{fault_of, image_of};
ghost use Rattle.spim_debug.specs.Scripts.{IsReadAs, commands_in, place_of};
ghost use Rattle.spim_debug.specs.Debugging.{IsScriptFor};
ghost use Rattle.spim_debug.specs.declared.script.ScriptError.TheVariants.{Memory};

use crate::script_lines::read_lines;
use crate::script_words::parts;
use mips_asm::TextLabels;
use mips_isa::Line;
use std::alloc::{AllocError, Global};

/// The most bytes of a script.
pub const MOST_SCRIPT_BYTES: u64 = 65_536;

/// The command of a line of a script. Labels are the addresses of their words.
#[derive(Clone, Copy)]
pub enum DebugCommand {
    /// To stop before the instruction at this address.
    Break(u32),
    /// Not to stop there any more.
    Delete(u32),
    /// To execute so many instructions.
    Step(u64),
    /// To execute an instruction, and go on up to a break address.
    Run,
    /// To note pc and the registers.
    Regs,
    /// To note the number of bytes of output.
    Out,
    /// To note the word at this address.
    Show(u32),
    /// To note so many words from this address on.
    Words(u32, u32),
    /// To note so many instructions from this address on.
    List(u32, u32),
}

/// The error of a line of a script.
#[derive(Clone, Copy)]
pub enum ScriptKind {
    /// It is in no form.
    B1,
    /// Its label is no label of a word of the text, or its address is that of no such word.
    B2,
}

/// The first faulty line of a script, by its number from 1.
#[derive(Clone, Copy)]
pub struct ScriptFault {
    pub kind: ScriptKind,
    pub line: u32,
}

/// Why a script has no commands.
#[derive(Clone, Copy)]
pub enum ScriptError {
    Memory,
    Fault(ScriptFault),
}

impl From<AllocError> for ScriptError {
    ghost from_gives = { λ _ e. e ≡ Memory };

    fn from(_error: AllocError) -> ScriptError {
        ScriptError::Memory
    }
}

/// The commands of a script for a program of these lines: one for each line of the script that is not empty.
///
/// B1 is a line in no form, and B2 one that names no word of the program's text, by a label or by an address; the first faulty line counts. Returns
/// `Memory` only if memory runs out. The forms are those of `docs/debugger.md`.
pub fn read_script(
    alloc: Global,
    bytes: &[u8],
    lines: &[Line],
) -> Result<Vec<DebugCommand>, ScriptError>
    requires small { length bytes.now ≤ MOST_SCRIPT_BYTES }
    requires few { length lines.now < 2 ^ 32 - 4 }
    requires ranges { AreInRange (lines_of lines.now) }
    requires image { fault_of (lines_of lines.now) ≡ None }
    ensures exact { IsReadAs (commands_in (place_of (lines_of lines.now)) bytes.now) result }
    ensures for_text { IfOk result (λ commands. IsScriptFor (image_of (lines_of lines.now)).text commands.items) }
{
    let labels = TextLabels::find(alloc, lines)?;
    let script = parts(alloc, bytes, b'\n')?;
    read_lines(alloc, script.as_slice(), &labels)
}
