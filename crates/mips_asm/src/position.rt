//! The position of the assembler: how many words of text and bytes of data are filled, and how much more each statement needs.

ghost use Rattle.std.specs.Prelude.{◌≡◌, ◌+◌, ◌-◌, ◌*◌, ◌/◌, ◌<◌, ◌≤◌, MatchOption, true, false};
ghost use Rattle.mips_isa.specs.Lines.{statement_of, instruction_of, data_item_of, directive_of, IsInRange, IsDirectiveInRange};
ghost use Rattle.mips_isa.specs.Assembly.{need, words_of_instruction, need_of_data, need_of_directive, after_need, is_wrong, up};
ghost use Rattle.mips_asm.specs.Passes.{position_of, need_of, IsSmall, Fits, IsAfter};

use mips_isa::{
    AsmDirective, AsmInstr, DataItem, MOST_DATA_BYTES, MOST_TEXT_WORDS, Segment, Statement,
};

/// The words and bytes filled so far, and the segment that is open.
#[derive(Clone, Copy)]
pub struct Position {
    pub words: u32,
    pub bytes: u32,
    pub segment: Segment,
}

/// The need of a statement.
#[derive(Clone, Copy)]
pub enum Need {
    /// Nothing.
    Nothing,
    /// Words of text.
    Words(u32),
    /// Words of data, which begin at a multiple of four.
    WordItems(usize),
    /// Bytes of data.
    Bytes(usize),
    /// To go on in a segment.
    Switch(Segment),
    /// To fill the data up to a multiple of a unit.
    Padding(u32),
}

/// The need of a statement.
pub fn need_of_statement(statement: &Statement) -> Need
    requires { IsInRange (statement_of statement.now) }
    ensures exact { need_of result ≡ need (statement_of statement.now) }
    ensures small { IsSmall result }
{
    match statement {
        Statement::Empty => Need::Nothing,
        Statement::Instruction(instruction) => Need::Words(words_of_instruction(instruction)),
        Statement::Data(item) => need_of_data(item),
        Statement::Directive(directive) => need_of_directive(directive),
    }
}

/// The words of text that an instruction is assembled to.
pub fn words_of_instruction(instruction: &AsmInstr) -> u32
    ensures exact { result ≡ words_of_instruction (instruction_of instruction.now) }
    ensures small { result ≤ 2 }
{
    match instruction {
        AsmInstr::Plain(_)
        | AsmInstr::ToTwo { .. }
        | AsmInstr::ToOne { .. }
        | AsmInstr::ToJump { .. }
        | AsmInstr::Move { .. }
        | AsmInstr::Neg { .. }
        | AsmInstr::Nop
        | AsmInstr::B { .. }
        | AsmInstr::BranchZero { .. } => 1,
        AsmInstr::La { .. }
        | AsmInstr::Li { .. }
        | AsmInstr::BranchOrder { .. }
        | AsmInstr::Mul { .. } => 2,
    }
}

/// The need of an item of data.
fn need_of_data(item: &DataItem) -> Need
    ensures exact { need_of result ≡ need_of_data (data_item_of item.now) }
    ensures small { IsSmall result }
{
    match item {
        DataItem::Word(items) => Need::WordItems(items.len()),
        DataItem::Byte(numbers) => Need::Bytes(numbers.len()),
        DataItem::Ascii(bytes) => Need::Bytes(bytes.len()),
        DataItem::Asciiz(bytes) => Need::Bytes(bytes.len() + 1),
        DataItem::Space(size) => Need::Bytes(*size as usize),
    }
}

/// The need of another directive.
fn need_of_directive(directive: &AsmDirective) -> Need
    requires { IsDirectiveInRange (directive_of directive.now) }
    ensures exact { need_of result ≡ need_of_directive (directive_of directive.now) }
    ensures small { IsSmall result }
{
    match directive {
        AsmDirective::ToText => Need::Switch(Segment::Text),
        AsmDirective::ToData => Need::Switch(Segment::Data),
        AsmDirective::Globl(_) => Need::Nothing,
        AsmDirective::Align(exponent) => Need::Padding(1 << *exponent),
    }
}

/// A number filled up to a multiple of a unit.
pub fn up_to_multiple(unit: u32, number: u32) -> u32
    requires unit { (0 < unit) × (unit ≤ 4096) }
    requires number { number ≤ MOST_DATA_BYTES }
    ensures exact { result ≡ up unit number }
    ensures bound { result ≤ number + unit }
{
    (number + (unit - 1)) / unit * unit
}

/// Whether a statement that needs this belongs into the other segment.
pub fn is_in_wrong_segment(need: Need, segment: Segment) -> bool
    ensures { result ≡ is_wrong (need_of need) segment }
{
    match (need, segment) {
        (Need::Words(_), Segment::Data) => true,
        (Need::WordItems(_) | Need::Bytes(_), Segment::Text) => true,
        (Need::Padding(unit), Segment::Text) => unit > 4,
        _ => false,
    }
}

/// The position after a number of bytes that begin at a place of the data, unless the data are then too large.
fn after_bytes(position: Position, first: u32, count: usize, unit: u32) -> Option<Position>
    requires first { first ≤ MOST_DATA_BYTES + 4096 }
    requires unit { (0 < unit) × (unit ≤ 4) }
    ensures { MatchOption result (MOST_DATA_BYTES < first + unit * count) (λ p. (p ≡ record position { bytes = first + unit * count }) × (first + unit * count ≤ MOST_DATA_BYTES)) }
{
    if count > MOST_DATA_BYTES as usize {
        return None;
    }
    let bytes = first as usize + unit as usize * count;
    if bytes > MOST_DATA_BYTES as usize {
        return None;
    }
    Some(Position {
        words: position.words,
        bytes: bytes as u32,
        segment: position.segment,
    })
}

/// The position after a statement that needs this, unless a segment is then too large.
pub fn position_after(need: Need, position: Position) -> Option<Position>
    requires fits { Fits position.words position.bytes }
    requires small { IsSmall need }
    ensures { IsAfter need position result }
{
    match need {
        Need::Nothing => Some(position),
        Need::Words(count) => after_words(position, count),
        Need::WordItems(count) => {
            after_bytes(position, up_to_multiple(4, position.bytes), count, 4)
        }
        Need::Bytes(count) => { after_bytes(position, up_to_multiple(1, position.bytes), count, 1) }
        Need::Switch(segment) => Some(Position {
            words: position.words,
            bytes: position.bytes,
            segment,
        }),
        Need::Padding(unit) => match position.segment {
            Segment::Text => Some(position),
            Segment::Data => { after_bytes(position, up_to_multiple(unit, position.bytes), 0, 1) }
        },
    }
}

/// The position after a number of words of text, unless the text is then too large.
fn after_words(position: Position, count: u32) -> Option<Position>
    requires words { position.words ≤ MOST_TEXT_WORDS }
    requires count { count ≤ 2 }
    ensures { MatchOption result (MOST_TEXT_WORDS < position.words + count) (λ p. (p ≡ record position { words = position.words + count }) × (position.words + count ≤ MOST_TEXT_WORDS)) }
{
    let words = position.words + count;
    if words > MOST_TEXT_WORDS {
        return None;
    }
    Some(Position {
        words,
        bytes: position.bytes,
        segment: position.segment,
    })
}
