//! The number of machine words in the text segment that lines of assembly are assembled to.

ghost use Rattle.std.specs.Prelude.{◌≡◌, ◌≤◌};
ghost use Rattle.mips_isa.specs.Lines.{statement_of, lines_of};
ghost use Rattle.mips_isa.specs.Assembly.{need};
ghost use Rattle.mips_asm.specs.TextWords.{words_needed, words_in, words_before};

use crate::completing::is_labelled;
use crate::position::words_of_instruction;
use mips_isa::{Line, MOST_TEXT_WORDS, Statement};

/// The words that a statement is assembled to.
pub fn words_of_statement(statement: &Statement) -> u32
    ensures { result ≡ words_needed (need (statement_of statement.now)) }
{
    match statement {
        Statement::Instruction(instruction) => words_of_instruction(instruction),
        _ => 0,
    }
}

/// The words that lines are assembled to.
pub fn words_in(lines: &[Line]) -> u32
    requires { words_in (lines_of lines.now) ≤ MOST_TEXT_WORDS }
    ensures { result ≡ words_in (lines_of lines.now) }
{
    let mut words = 0;
    for line in lines {
        words += words_of_statement(&line.statement);
    }
    words
}

/// The words before the first label of this name; without one, those of all lines.
pub fn words_before(lines: &[Line], name: &[u8]) -> u32
    requires { words_in (lines_of lines.now) ≤ MOST_TEXT_WORDS }
    ensures exact { result ≡ words_before (lines_of lines.now) name.now }
    ensures fits { result ≤ MOST_TEXT_WORDS }
{
    let mut words = 0;
    for line in lines {
        if is_labelled(line, name) {
            return words;
        }
        words += words_of_statement(&line.statement);
    }
    words
}
