//! Disassembly: converting a machine word to a line of assembly.

ghost use Rattle.std.specs.Prelude.{◌≡◌};
ghost use Rattle.spim_debug.specs.Disassembly.{line_of_option, disassembled};

use mips_isa::{AsmInstr, Line, LineLabels, Statement, decode};

/// The line of a word's instruction, or none exactly if the word is no instruction.
pub fn disassemble(word: u32) -> Option<Line>
    ensures { line_of_option result ≡ disassembled word }
{
    let instruction = decode(word)?;
    Some(Line {
        labels: LineLabels::none(),
        statement: Statement::Instruction(AsmInstr::Plain(instruction)),
    })
}
