//! Parsing the statements of assembly that begin with a directive, from the tokens after it.

ghost use Rattle.std.specs.Prelude.{◌≡◌, IfOk, map};
ghost use Rattle.mips_isa.specs.Lines.{statement_of, item_of};
ghost use Rattle.mips_text.specs.Statements.{byte_made, directive_fault, directive_made, item_made};
ghost use Rattle.mips_text.specs.Views.{word_seen};

use crate::directives::Directive;
use crate::operands::{label_at, number_at, raw_at};
use crate::ranges::{align_power, byte_number, space_size, word_number};
use crate::strings::unescaped;
use crate::wanted::{Range, Wanted, many_fault, row_fault};
use crate::words::Word;
use mips_isa::{AsmDirective, AsmKind, DataItem, Label, Statement, WordItem};
use std::alloc::{AllocError, Global};

static NOTHING: [Wanted; 0] = [];

static NAME: [Wanted; 1] = [Wanted::Name];

static TEXT: [Wanted; 1] = [Wanted::Text];

static SPACE: [Wanted; 1] = [Wanted::Number(Range::Space)];

static POWER: [Wanted; 1] = [Wanted::Number(Range::Power)];

/// The first fault of the words behind a directive.
pub(crate) fn directive_fault(directive: Directive, words: &[Word]) -> Option<AsmKind>
    ensures { result ≡ directive_fault directive (map word_seen words.now) }
{
    match directive {
        Directive::Text | Directive::Data => row_fault(&NOTHING, words),
        Directive::Globl => row_fault(&NAME, words),
        Directive::Word => many_fault(Wanted::Target(Range::Word), words),
        Directive::Byte => many_fault(Wanted::Number(Range::Byte), words),
        Directive::Ascii | Directive::Asciiz => row_fault(&TEXT, words),
        Directive::Space => row_fault(&SPACE, words),
        Directive::Align => row_fault(&POWER, words),
    }
}

/// The statement of a directive and of the words behind it, which are the operands that it expects. Returns `Err` only if memory runs out.
pub(crate) fn directive_statement(
    alloc: Global,
    directive: Directive,
    words: &[Word],
) -> Result<Statement, AllocError>
    ensures { IfOk result (λ s. statement_of s ≡ directive_made directive (map word_seen words.now)) }
{
    match directive {
        Directive::Text => Ok(Statement::Directive(AsmDirective::ToText)),
        Directive::Data => Ok(Statement::Directive(AsmDirective::ToData)),
        Directive::Globl => {
            let name = Label::new(alloc, label_at(words, 0))?;
            Ok(Statement::Directive(AsmDirective::Globl(name)))
        }
        Directive::Word => Statement::of_item(alloc, DataItem::Word(items(alloc, words)?)),
        Directive::Byte => Statement::of_item(alloc, DataItem::Byte(bytes(alloc, words)?)),
        Directive::Ascii => {
            let text = unescaped(alloc, raw_at(words, 0))?;
            Statement::of_item(alloc, DataItem::Ascii(text))
        }
        Directive::Asciiz => {
            let text = unescaped(alloc, raw_at(words, 0))?;
            Statement::of_item(alloc, DataItem::Asciiz(text))
        }
        Directive::Space => {
            let size = space_size(number_at(words, 0));
            Statement::of_item(alloc, DataItem::Space(size))
        }
        Directive::Align => {
            let power = align_power(number_at(words, 0));
            Ok(Statement::Directive(AsmDirective::Align(power)))
        }
    }
}

/// The operands of `.word`. Returns `Err` only if memory runs out.
fn items(alloc: Global, words: &[Word]) -> Result<Vec<WordItem>, AllocError>
    ensures { IfOk result (λ items. map item_of items.items ≡ map item_made (map word_seen words.now)) }
{
    let mut items = Vec::with_capacity(alloc, words.len())?;
    for word in words {
        items.push(item(alloc, *word)?)?;
    }
    Ok(items)
}

/// The operand of `.word` that is this word. Returns `Err` only if memory runs out.
fn item(alloc: Global, word: Word) -> Result<WordItem, AllocError>
    ensures { IfOk result (λ item. item_of item ≡ item_made (word_seen word.entry)) }
{
    match word {
        Word::Name(name) => Ok(WordItem::Address(Label::new(alloc, name)?)),
        Word::Number(value) => Ok(WordItem::Number(word_number(value))),
        _ => Ok(WordItem::Number(0)),
    }
}

/// The operands of `.byte`. Returns `Err` only if memory runs out.
fn bytes(alloc: Global, words: &[Word]) -> Result<Vec<i32>, AllocError>
    ensures { IfOk result (λ bytes. bytes.items ≡ map byte_made (map word_seen words.now)) }
{
    let mut bytes = Vec::with_capacity(alloc, words.len())?;
    for word in words {
        bytes.push(byte(*word))?;
    }
    Ok(bytes)
}

/// The operand of `.byte` that is this word.
fn byte(word: Word) -> i32
    ensures { result ≡ byte_made (word_seen word.entry) }
{
    match word {
        Word::Number(value) => byte_number(value),
        _ => 0,
    }
}
