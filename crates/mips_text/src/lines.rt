//! Parsing a line of assembly: first its tokens, and from these its labels and its statement.

ghost use Rattle.std.specs.Prelude.{◌≡◌, ◌≤◌, ◌+◌, IsTrue, length, map};
ghost use Rattle.mips_isa.specs.Lines.{line_of, statement_of};
ghost use Rattle.mips_text.specs.Answers.{Meets};
ghost use Rattle.mips_text.specs.Reading.{directive_read, has_label, instruction_read, line_read, rest_read, statement_read};
ghost use Rattle.mips_text.specs.Views.{word_seen};
ghost use Rattle.mips_text.specs.Words.{words_of};

use crate::data::{directive_fault, directive_statement};
use crate::directives::Directive;
use crate::flaw::Flaw;
use crate::instruction_operands::instruction_operands;
use crate::instructions::instruction;
use crate::mnemonics::Mnemonic;
use crate::operands::{has_colon, has_name, label_at};
use crate::wanted::row_fault;
use crate::words::{Word, fill_words};
use mips_isa::{AsmKind, Label, Line, LineLabels, Statement};
use std::alloc::Global;

/// The line of these bytes. Its words are put into a list in place of what that held, so that all lines share its memory.
pub(crate) fn read_line<'a>(
    alloc: Global,
    bytes: &'a [u8],
    words: &mut Vec<Word<'a>>,
) -> Result<Line, Flaw>
    ensures { Meets line_of result (line_read (words_of bytes.now)) }
{
    fill_words(words, bytes)?;
    line_of_words(alloc, words.as_slice())
}

/// The line of these words: labels, and a statement or none.
fn line_of_words(alloc: Global, words: &[Word]) -> Result<Line, Flaw>
    ensures { Meets line_of result (line_read (map word_seen words.now)) }
{
    let mut labels = LineLabels::none();
    let mut at = 0;
    while has_label(words, at) {
        labels = labels.with(alloc, Label::new(alloc, label_at(words, at))?)?;
        at += 2;
    }
    match read_rest(alloc, &words[at..]) {
        Ok(statement) => Ok(Line { labels, statement }),
        Err(flaw) => Err(flaw),
    }
}

/// Whether a name and a colon stand at a place.
fn has_label(words: &[Word], index: usize) -> bool
    requires { index ≤ length words.now }
    ensures exact { result ≡ has_label (map word_seen words.now) index }
    ensures within { IsTrue result → index + 2 ≤ length words.now }
{
    index + 1 < words.len() && has_name(words, index) && has_colon(words, index + 1)
}

/// The statement of words that begin with no label, or none if there is no word.
fn read_rest(alloc: Global, words: &[Word]) -> Result<Statement, Flaw>
    ensures { Meets statement_of result (rest_read (map word_seen words.now)) }
{
    match words {
        [] => Ok(Statement::Empty),
        [Word::Name(first), operands @ ..] => read_statement(alloc, first, operands),
        _ => Err(Flaw::Fault(AsmKind::A1)),
    }
}

/// The statement whose first word is this name, with the words behind it.
fn read_statement(alloc: Global, first: &[u8], words: &[Word]) -> Result<Statement, Flaw>
    ensures { Meets statement_of result (statement_read first.now (map word_seen words.now)) }
{
    match first {
        [b'.', ..] => read_directive(alloc, Directive::named(first), words),
        _ => read_instruction(alloc, Mnemonic::named(first), words),
    }
}

fn read_directive(
    alloc: Global,
    directive: Option<Directive>,
    words: &[Word],
) -> Result<Statement, Flaw>
    ensures { Meets statement_of result (directive_read directive (map word_seen words.now)) }
{
    let Some(directive) = directive else {
        return Err(Flaw::Fault(AsmKind::A4));
    };
    match directive_fault(directive, words) {
        Some(kind) => Err(Flaw::Fault(kind)),
        None => Ok(directive_statement(alloc, directive, words)?),
    }
}

fn read_instruction(
    alloc: Global,
    mnemonic: Option<Mnemonic>,
    words: &[Word],
) -> Result<Statement, Flaw>
    ensures { Meets statement_of result (instruction_read mnemonic (map word_seen words.now)) }
{
    let Some(mnemonic) = mnemonic else {
        return Err(Flaw::Fault(AsmKind::A1));
    };
    match row_fault(instruction_operands(mnemonic, words), words) {
        Some(kind) => Err(Flaw::Fault(kind)),
        None => Ok(Statement::Instruction(instruction(alloc, mnemonic, words)?)),
    }
}
