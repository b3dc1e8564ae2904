//! Parsing the lines of a debugger script, one command for each.

ghost use Rattle.std.specs.Prelude.{◌≡◌, ◌≤◌, IfOk, length, map, suc};
ghost use Rattle.spim_debug.specs.Scripts.{IsReadAs, address_in, alone, commands_from, number_in, said, said_by, with_number, with_numbers, with_operand, with_operands, with_place};
ghost use Rattle.spim_debug.specs.ScriptLines.{asked, place_by, with_command};
ghost use Rattle.spim_debug.specs.declared.script.DebugCommand.TheVariants.{Show, Step, Words};

use crate::places::{is_place, place};
use crate::script::{DebugCommand, ScriptError, ScriptFault, ScriptKind};
use crate::script_words::{parts, read_address, read_number};
use mips_asm::TextLabels;
use std::alloc::{AllocError, Global};

/// The most instructions of a `step`.
const MOST_STEPS: u64 = 1_000_000_000;

/// The most digits of their number.
const STEP_DIGITS: usize = 10;

/// The most instructions of a `list`, and words of a `words`.
const MOST_LISTED: u64 = 1_000;

/// The most digits of their number.
const LIST_DIGITS: usize = 4;

/// The commands of the lines of a script, or the first fault.
pub(crate) fn read_lines(
    alloc: Global,
    lines: &[&[u8]],
    labels: &TextLabels,
) -> Result<Vec<DebugCommand>, ScriptError>
    requires { length lines.now ≤ 65537 }
    ensures { IsReadAs (commands_from (place_by labels.now) 1 (map (λ line. line.now) lines.now)) result }
{
    let mut commands = Vec::new(alloc);
    for (index, line) in lines.iter().enumerate() {
        match read_line(alloc, line, labels)? {
            Ok(command) => keep(&mut commands, command)?,
            Err(kind) => {
                let line = index as u32 + 1;
                return Err(ScriptError::Fault(ScriptFault { kind, line }));
            }
        }
    }
    Ok(commands)
}

/// Adds a command, if there is one.
fn keep(commands: &mut Vec<DebugCommand>, command: Option<DebugCommand>) -> Result<(), AllocError>
    ensures { IfOk result (λ done. commands.new.items ≡ with_command commands.old.items command) }
{
    if let Some(command) = command {
        commands.push(command)?;
    }
    Ok(())
}

/// The meaning of a line: a command, or nothing if it is empty; or its fault. The outer `Err` is returned only if memory runs out.
fn read_line(
    alloc: Global,
    line: &[u8],
    labels: &TextLabels,
) -> Result<Result<Option<DebugCommand>, ScriptKind>, AllocError>
    ensures { IfOk result (λ told. told ≡ said (place_by labels.now) line.now) }
{
    if line.is_empty() {
        return Ok(Ok(None));
    }
    let words = parts(alloc, line, b' ')?;
    Ok(said_by(words.as_slice(), labels))
}

/// The meaning of the words of a line.
#[tactic(auto, using(crate::proofs::ScriptCommands::more_words))]
fn said_by(words: &[&[u8]], labels: &TextLabels) -> Result<Option<DebugCommand>, ScriptKind>
    ensures { result ≡ said_by (place_by labels.now) (map (λ word. word.now) words.now) }
{
    match words {
        [verb] => alone(verb),
        [verb, word] => with_operand(verb, word, labels),
        [verb, first, second] => with_operands(verb, first, second, labels),
        _ => Err(ScriptKind::B1),
    }
}

/// The meaning of a single word.
fn alone(verb: &[u8]) -> Result<Option<DebugCommand>, ScriptKind>
    ensures { result ≡ alone verb.now }
{
    if verb == b"run".as_slice() {
        Ok(Some(DebugCommand::Run))
    } else if verb == b"regs".as_slice() {
        Ok(Some(DebugCommand::Regs))
    } else if verb == b"out".as_slice() {
        Ok(Some(DebugCommand::Out))
    } else {
        Err(ScriptKind::B1)
    }
}

/// The meaning of a word with an operand.
fn with_operand(
    verb: &[u8],
    word: &[u8],
    labels: &TextLabels,
) -> Result<Option<DebugCommand>, ScriptKind>
    ensures { result ≡ with_operand (place_by labels.now) verb.now word.now }
{
    if verb == b"break".as_slice() {
        at_place(Asked::Break, word, labels)
    } else if verb == b"delete".as_slice() {
        at_place(Asked::Delete, word, labels)
    } else if verb == b"step".as_slice() {
        step(word)
    } else if verb == b"show".as_slice() {
        show(word)
    } else {
        Err(ScriptKind::B1)
    }
}

/// The meaning of a word with two operands.
fn with_operands(
    verb: &[u8],
    first: &[u8],
    second: &[u8],
    labels: &TextLabels,
) -> Result<Option<DebugCommand>, ScriptKind>
    ensures { result ≡ with_operands (place_by labels.now) verb.now first.now second.now }
{
    if verb == b"list".as_slice() {
        match read_number(second, LIST_DIGITS, MOST_LISTED) {
            Some(count) => at_place(Asked::List(count as u32), first, labels),
            None => Err(ScriptKind::B1),
        }
    } else if verb == b"words".as_slice() {
        words(first, second)
    } else {
        Err(ScriptKind::B1)
    }
}

/// The kind of command that is asked for at a word of the text.
#[derive(Clone, Copy)]
enum Asked {
    Break,
    Delete,
    /// To note so many instructions.
    List(u32),
}

impl Asked {
    /// The command at this address.
    fn at(self, address: u32) -> DebugCommand
        ensures { result ≡ asked self address }
    {
        match self {
            Asked::Break => DebugCommand::Break(address),
            Asked::Delete => DebugCommand::Delete(address),
            Asked::List(count) => DebugCommand::List(address, count),
        }
    }
}

/// The command at a place. Returns B1 if the word is neither a name nor an address, and B2 if it names no word of the text.
fn at_place(
    what: Asked,
    word: &[u8],
    labels: &TextLabels,
) -> Result<Option<DebugCommand>, ScriptKind>
    ensures { result ≡ with_place (place_by labels.now) word.now (asked what) }
{
    if !is_place(word) {
        return Err(ScriptKind::B1);
    }
    match place(labels, word) {
        Some(address) => Ok(Some(what.at(address))),
        None => Err(ScriptKind::B2),
    }
}

/// The command to execute so many instructions.
fn step(word: &[u8]) -> Result<Option<DebugCommand>, ScriptKind>
    ensures { result ≡ with_number (number_in 10 1000000000 word.now) Step }
{
    match read_number(word, STEP_DIGITS, MOST_STEPS) {
        Some(count) => Ok(Some(DebugCommand::Step(count))),
        None => Err(ScriptKind::B1),
    }
}

/// The command to note the word at this address.
fn show(word: &[u8]) -> Result<Option<DebugCommand>, ScriptKind>
    ensures { result ≡ with_number (address_in word.now) Show }
{
    match read_address(word) {
        Some(address) => Ok(Some(DebugCommand::Show(address))),
        None => Err(ScriptKind::B1),
    }
}

/// The command to note so many words from an address on.
fn words(first: &[u8], second: &[u8]) -> Result<Option<DebugCommand>, ScriptKind>
    ensures { result ≡ with_numbers (address_in first.now) (number_in 4 1000 second.now) Words }
{
    let Some(address) = read_address(first) else {
        return Err(ScriptKind::B1);
    };
    match read_number(second, LIST_DIGITS, MOST_LISTED) {
        Some(count) => Ok(Some(DebugCommand::Words(address, count as u32))),
        None => Err(ScriptKind::B1),
    }
}
