//! Parsing a whole assembly text, line by line.

ghost use Rattle.std.specs.Prelude.{◌≡◌, ◌∷◌, ◌≤◌, ◌<◌, IfOk, length, vec_len};
ghost use Rattle.mips_isa.specs.Lines.{AreInRange, lines_of};
ghost use Rattle.mips_text.specs.Reading.{lines_in};
ghost use Rattle.mips_text.specs.Answers.{TextReadsAs};

use crate::flaw::Flaw;
use crate::lines::read_line;
use crate::span::{Span, span_len};
use mips_isa::{AsmError, AsmFault, Line};
use std::alloc::Global;

/// The lines of an assembly text, one for each line of the text.
///
/// A line with a fault is no line of assembly, and the text's error is that of the first such line, which its first bad word decides. A1: a byte begins no
/// word, a string is not closed, or the statement's first word is no mnemonic. A4: that word begins with `.` and is no directive. A3: a number is out of
/// its operand's range. A2: an operand is missing, is of another kind, is no register, is a string with an unknown escape, or is one too many. Returns
/// `Memory` only if memory runs out.
pub fn read_asm(alloc: Global, bytes: &[u8]) -> Result<Vec<Line>, AsmError>
    requires { length bytes.now ≤ 532676628 }
    ensures exact { TextReadsAs bytes.now result }
    ensures ranges { IfOk result (λ lines. AreInRange (lines_of lines.items)) }
    ensures few { IfOk result (λ lines. vec_len lines ≤ length bytes.now) }
{
    let mut lines = Vec::new(alloc);
    let mut words = Vec::new(alloc);
    let mut rest = bytes;
    while !rest.is_empty() {
        let Parted { line, behind } = part(rest);
        match read_line(alloc, line, &mut words) {
            Ok(line) => lines.push(line)?,
            Err(Flaw::Memory) => return Err(AsmError::Memory),
            Err(Flaw::Fault(kind)) => {
                let line = lines.len() as u32 + 1;
                return Err(AsmError::Fault(AsmFault { kind, line }));
            }
        }
        rest = behind;
    }
    Ok(lines)
}

/// The bytes of a line, without its newline, and those after it.
#[derive(Clone, Copy)]
struct Parted<'a> {
    line: &'a [u8],
    behind: &'a [u8],
}

/// Parts the first line from the others.
fn part(bytes: &[u8]) -> Parted<'_>
    requires { 0 < length bytes.now }
    ensures exact { lines_in bytes.now ≡ result.line.now ∷ lines_in result.behind.now }
    ensures shorter { length result.behind.now < length bytes.now }
{
    let end = span_len(Span::Line, bytes);
    if end < bytes.len() {
        return Parted {
            line: &bytes[..end],
            behind: &bytes[end + 1..],
        };
    }
    Parted {
        line: bytes,
        behind: &[],
    }
}
