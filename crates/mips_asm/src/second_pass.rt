//! The second pass of the assembler: it translates each line into machine words and data bytes.

ghost use Rattle.std.specs.Prelude.{◌≡◌, ◌≤◌, ◌<◌, ◌+◌, ◌*◌, [], ◌∷◌, ◌++◌, List, length, map, replicate, Option, Some, None, OnOk, IfOk, IfErr};
ghost use Rattle.std.specs.List.{AllByRecursion};
ghost use Rattle.mips_isa.specs.Words.{word_of, InRange};
ghost use Rattle.mips_isa.specs.Lines as statements;
ghost use Rattle.mips_isa.specs.Lines.{line_of, lines_of, statement_of, instruction_of, directive_of, IsInRange, IsInstructionInRange, IsDirectiveInRange, AreInRange};
ghost use Rattle.mips_isa.specs.Assembly.{expansion, address_or_zero, need, need_of_directive, start_name, Assembles};
ghost use Rattle.mips_asm.specs.Places.{places_of};
ghost use Rattle.mips_asm.specs.Completing.{segment_after_need};
ghost use Rattle.mips_asm.specs.Parts.{expanded, instruction_fault, target_in, target_address, IsError, statement_fault, words_of_statement, bytes_of_statement, zeros, last_fault, IsWordPlace, IsImageOrFault};
ghost use Rattle.mips_asm.specs.SecondPasses.{IsLeft, IsNext, HasLeft, IsDue};
ghost use Rattle.mips_isa.specs.declared.asm_fault.AsmError.TheVariants.{Memory};
ghost use Rattle.mips_isa.specs.declared.place.Segment.TheVariants.{Text};

use crate::expansion::{Expansion, expand};
use crate::items::{add_item, align, fault};
use crate::labels::Labels;
use crate::target::{Target, is_of_text, may_reach, target_of};
use mips_isa::{
    AsmDirective, AsmError, AsmFault, AsmInstr, AsmKind, DATA_START, Image, Line, MOST_DATA_BYTES,
    MOST_TEXT_WORDS, Segment, Statement, TEXT_START, encode,
};
use std::alloc::{AllocError, Global};

/// The second pass over lines, which may come in parts: it assembles them. The lines are those of the first pass, in the same order.
#[derive(Drop)]
pub struct SecondPass {
    labels: Labels,
    added: Vec<Line>,
    assembly: Assembly,
}

/// The output of the lines so far; the number of the next line, from 1; and the first fault.
#[derive(Drop)]
struct Assembly {
    output: Output,
    number: usize,
    fault: Option<AsmFault>,
}

/// The text and bytes that lines are assembled to so far, and the segment that is open.
#[derive(Drop)]
struct Output {
    text: Vec<u32>,
    bytes: Vec<u8>,
    segment: Segment,
}

impl SecondPass {
    /// The second pass before any line, by the labels of all lines, and with lines to add behind the others.
    pub(crate) fn new(alloc: Global, labels: Labels, added: Vec<Line>) -> Self
        ensures labels { result.labels ≡ labels }
        ensures added { result.added.items ≡ added.items }
        ensures text { result.assembly.output.text.items ≡ [] }
        ensures bytes { result.assembly.output.bytes.items ≡ [] }
        ensures segment { result.assembly.output.segment ≡ Text }
        ensures number { result.assembly.number ≡ 1 }
        ensures fault { result.assembly.fault ≡ None }
    {
        SecondPass {
            labels,
            added,
            assembly: Assembly {
                output: Output {
                    text: Vec::new(alloc),
                    bytes: Vec::new(alloc),
                    segment: Segment::Text,
                },
                number: 1,
                fault: None,
            },
        }
    }

    /// Takes the next lines. Their fault, if any, is kept for `finish`. Returns `Err` only if memory runs out, or if more lines are taken than a `usize`
    /// counts. After an `Err` the pass is of no use, and is dropped.
    pub fn take(&mut self, lines: &[Line]) -> Result<(), AllocError>
        requires due { IsDue self.old (lines_of lines.now) }
        requires ranges { AreInRange (lines_of lines.now) }
        ensures { (all rest : List statements.Line) → HasLeft self.old all (lines_of lines.now ++ rest) → OnOk result (HasLeft self.new all rest) }
    {
        self.assembly.take(&self.labels, lines)
    }

    /// The image, once all lines were taken, or their first fault: a name without a place (A6), or a target that is too far or not in text (A7); after the
    /// last line, that `__start` is no label of a word (A6). Returns `Memory` only in the cases in which `take` returns `Err`.
    pub fn finish(mut self) -> Result<Image, AsmError>
        requires done { (all : List statements.Line) × HasLeft self all [] }
        ensures { (all : List statements.Line) → HasLeft self all [] → Assembles all result }
    {
        self.assembly.take(&self.labels, &self.added)?;
        self.assembly.finish(&self.labels)
    }
}

impl Assembly {
    /// Assembles the next lines.
    fn take(&mut self, labels: &Labels, lines: &[Line]) -> Result<(), AllocError>
        requires next { IsNext (places_of labels.now) self.old (lines_of lines.now) }
        requires ranges { AreInRange (lines_of lines.now) }
        ensures { (all rest : List statements.Line) → IsLeft (places_of labels.now) all (lines_of lines.now ++ rest) self.old → OnOk result (IsLeft (places_of labels.now) all rest self.new) }
    {
        for line in lines {
            self.take_line(labels, line)?;
        }
        Ok(())
    }

    /// Assembles the next line. After a fault nothing is left to do.
    fn take_line(&mut self, labels: &Labels, line: &Line) -> Result<(), AllocError>
        requires next { IsNext (places_of labels.now) self.old (line_of line.now ∷ []) }
        requires range { IsInRange (statement_of line.now.statement) }
        ensures { (all rest : List statements.Line) → IsLeft (places_of labels.now) all (line_of line.now ∷ rest) self.old → OnOk result (IsLeft (places_of labels.now) all rest self.new) }
    {
        if self.fault.is_some() {
            return Ok(());
        }
        let Some(number) = self.number.checked_add(1) else {
            return Err(AllocError);
        };
        match self.output.add(labels, &line.statement, self.number) {
            Ok(()) => {
                self.number = number;
                Ok(())
            }
            Err(AsmError::Memory) => Err(AllocError),
            Err(AsmError::Fault(fault)) => {
                self.fault = Some(fault);
                Ok(())
            }
        }
    }

    /// The image after the last line, or the first fault.
    fn finish(self, labels: &Labels) -> Result<Image, AsmError>
        requires next { IsNext (places_of labels.now) self [] }
        ensures { (all : List statements.Line) → IsLeft (places_of labels.now) all [] self → IsImageOrFault all result }
    {
        if let Some(fault) = self.fault {
            return Err(AsmError::Fault(fault));
        }
        self.output.finish(labels, self.number)
    }
}

impl Output {
    /// Assembles a statement.
    fn add(&mut self, labels: &Labels, statement: &Statement, number: usize) -> Result<(), AsmError>
        requires words { length self.old.text.items ≤ MOST_TEXT_WORDS }
        requires bytes { length self.old.bytes.items ≤ MOST_DATA_BYTES }
        requires ranges { IsInRange (statement_of statement.now) }
        ensures checked { OnOk result (statement_fault (places_of labels.now) (length self.old.text.items) (statement_of statement.now) ≡ None) }
        ensures text { OnOk result (self.new.text.items ≡ self.old.text.items ++ words_of_statement (places_of labels.now) (length self.old.text.items) (statement_of statement.now)) }
        ensures bytes { OnOk result (self.new.bytes.items ≡ self.old.bytes.items ++ bytes_of_statement (places_of labels.now) self.old.segment (length self.old.bytes.items) (statement_of statement.now)) }
        ensures segment { OnOk result (self.new.segment ≡ segment_after_need (need (statement_of statement.now)) self.old.segment) }
        ensures error { IfErr result (IsError number (statement_fault (places_of labels.now) (length self.old.text.items) (statement_of statement.now))) }
    {
        match statement {
            Statement::Empty => {}
            Statement::Instruction(instruction) => {
                add_instruction(&mut self.text, labels, instruction, number)?;
            }
            Statement::Data(item) => add_item(&mut self.bytes, labels, item, number)?,
            Statement::Directive(directive) => self.follow(directive)?,
        }
        Ok(())
    }

    /// Opens a segment, or fills up the data, as a directive says.
    fn follow(&mut self, directive: &AsmDirective) -> Result<(), AllocError>
        requires bytes { length self.old.bytes.items ≤ MOST_DATA_BYTES }
        requires ranges { IsDirectiveInRange (directive_of directive.now) }
        ensures text { self.new.text ≡ self.old.text }
        ensures bytes { OnOk result (self.new.bytes.items ≡ self.old.bytes.items ++ replicate (zeros (need_of_directive (directive_of directive.now)) self.old.segment (length self.old.bytes.items)) 0) }
        ensures segment { OnOk result (self.new.segment ≡ segment_after_need (need_of_directive (directive_of directive.now)) self.old.segment) }
    {
        match directive {
            AsmDirective::ToText => self.segment = Segment::Text,
            AsmDirective::ToData => self.segment = Segment::Data,
            AsmDirective::Globl(_) => {}
            AsmDirective::Align(power) => align(&mut self.bytes, self.segment, *power)?,
        }
        Ok(())
    }

    /// The image, if `__start` is the label of a word.
    fn finish(self, labels: &Labels, number: usize) -> Result<Image, AsmError>
        requires words { length self.text.items ≤ MOST_TEXT_WORDS }
        requires bytes { length self.bytes.items ≤ MOST_DATA_BYTES }
        requires start { IsWordPlace (places_of labels.now start_name) }
        ensures checked { OnOk result (last_fault (places_of labels.now) (length self.text.items) ≡ None) }
        ensures image { IfOk result (λ image. image ≡ record { entry = address_or_zero (places_of labels.now start_name); text = self.text.items; bytes = self.bytes.items }) }
        ensures error { IfErr result (IsError number (last_fault (places_of labels.now) (length self.text.items))) }
    {
        let end = TEXT_START + 4 * self.text.len() as u32;
        match labels.place(b"__start") {
            Some(place) => {
                if is_of_text(place.segment) && place.address < end {
                    Ok(Image {
                        entry: place.address,
                        text: self.text,
                        bytes: self.bytes,
                    })
                } else {
                    Err(fault(AsmKind::A6, number))
                }
            }
            None => Err(fault(AsmKind::A6, number)),
        }
    }
}

/// Adds the words of an instruction.
fn add_instruction(
    text: &mut Vec<u32>,
    labels: &Labels,
    instruction: &AsmInstr,
    number: usize,
) -> Result<(), AsmError>
    requires small { length text.old.items ≤ MOST_TEXT_WORDS }
    requires ranges { IsInstructionInRange (instruction_of instruction.now) }
    ensures checked { OnOk result (instruction_fault (places_of labels.now) (TEXT_START + 4 * length text.old.items) (instruction_of instruction.now) ≡ None) }
    ensures added { OnOk result (text.new.items ≡ text.old.items ++ map word_of (expansion (λ name. address_or_zero (places_of labels.now name)) (TEXT_START + 4 * length text.old.items) (instruction_of instruction.now))) }
    ensures error { IfErr result (IsError number (instruction_fault (places_of labels.now) (TEXT_START + 4 * length text.old.items) (instruction_of instruction.now))) }
{
    let at = TEXT_START + 4 * text.len() as u32;
    let address = target_address(labels, instruction, at, number)?;
    add_expansion(text, expand(instruction, at, address))?;
    Ok(())
}

/// The address of the target of an instruction, or 0 for one that has none.
fn target_address(
    labels: &Labels,
    instruction: &AsmInstr,
    at: u32,
    number: usize,
) -> Result<u32, AsmError>
    requires { at ≤ DATA_START }
    ensures checked { OnOk result (instruction_fault (places_of labels.now) at (instruction_of instruction.now) ≡ None) }
    ensures address { IfOk result (λ address. address ≡ target_address (target_in (places_of labels.now) (instruction_of instruction.now))) }
    ensures error { IfErr result (IsError number (instruction_fault (places_of labels.now) at (instruction_of instruction.now))) }
{
    match target_of(labels, instruction) {
        Target::Unused => Ok(0),
        Target::Missing => Err(fault(AsmKind::A6, number)),
        Target::Found(place) => {
            if may_reach(instruction, at, place) {
                Ok(place.address)
            } else {
                Err(fault(AsmKind::A7, number))
            }
        }
    }
}

/// Adds the words of an expansion.
fn add_expansion(text: &mut Vec<u32>, expansion: Expansion) -> Result<(), AsmError>
    requires { AllByRecursion InRange (expanded expansion) }
    ensures added { OnOk result (text.new.items ≡ text.old.items ++ map word_of (expanded expansion)) }
    ensures error { IfErr result (λ e. e ≡ Memory) }
{
    match expansion {
        Expansion::One(only) => text.push(encode(only))?,
        Expansion::Two(first, second) => {
            text.push(encode(first))?;
            text.push(encode(second))?;
        }
    }
    Ok(())
}
