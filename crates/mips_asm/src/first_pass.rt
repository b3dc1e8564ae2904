//! The first pass of the assembler: it computes the segment and position of each label.

ghost use Rattle.std.specs.Prelude.{◌≡◌, ◌++◌, ◌∷◌, [], List, OnOk};
ghost use Rattle.mips_isa.specs.Lines.{statement_of, line_of, lines_of, IsInRange, AreInRange};
ghost use Rattle.mips_isa.specs.Lines as statements;
ghost use Rattle.mips_asm.specs.Passes.{Fits, item_in, need_of, shown, is_lacking, Steps, FindsLabels};
ghost use Rattle.mips_asm.specs.FirstPasses.{HasTaken};
ghost use Rattle.mips_asm.specs.SecondPasses.{Begins};

use crate::completing::added_lines;
use crate::labels::Labels;
use crate::mark::{Mark, is_in_text, mark_at};
use crate::position::{
    Need, Position, is_in_wrong_segment, need_of_statement, position_after, up_to_multiple,
};
use crate::second_pass::SecondPass;
use crate::table::{Table, define_labels, mark_of};
use mips_isa::{AsmError, AsmFault, AsmKind, DATA_START, Line, Segment};
use std::alloc::{AllocError, Global};

/// The first pass over lines, which may come in parts: it finds the places of their labels, and their first fault.
///
/// It keeps no lines. Those that were taken are to be taken once more, in the same order, by the second pass that `finish` gives.
#[derive(Drop)]
pub struct FirstPass {
    alloc: Global,
    table: Table,
    items: Vec<u32>,
    position: Position,
    lines: u32,
    fault: Option<AsmFault>,
}

impl FirstPass {
    /// The first pass before any line.
    pub fn new(alloc: Global) -> Self
        ensures { HasTaken result [] }
    {
        FirstPass {
            alloc,
            table: Table::new(alloc),
            items: Vec::new(alloc),
            position: Position {
                words: 0,
                bytes: 0,
                segment: Segment::Text,
            },
            lines: 0,
            fault: None,
        }
    }

    /// Takes the next lines. Their fault, if any, is kept for `finish`. Returns `Err` only if memory runs out, or if more than 4,294,967,295 lines are
    /// taken, since a fault tells its line in 32 bits. After an `Err` the pass is of no use, and is dropped.
    pub fn take(&mut self, lines: &[Line]) -> Result<(), AllocError>
        requires some { (taken : List statements.Line) × HasTaken self.old taken }
        requires ranges { AreInRange (lines_of lines.now) }
        ensures { (taken : List statements.Line) → HasTaken self.old taken → OnOk result (HasTaken self.new (taken ++ lines_of lines.now)) }
    {
        for line in lines {
            self.take_line(line)?;
        }
        Ok(())
    }

    /// Takes the next line. After a fault nothing is left to do.
    fn take_line(&mut self, line: &Line) -> Result<(), AllocError>
        requires some { (taken : List statements.Line) × HasTaken self.old taken }
        requires range { IsInRange (statement_of line.now.statement) }
        ensures { (taken : List statements.Line) → HasTaken self.old taken → OnOk result (HasTaken self.new (taken ++ line_of line.now ∷ [])) }
    {
        if self.fault.is_some() {
            return Ok(());
        }
        let Some(number) = self.lines.checked_add(1) else {
            return Err(AllocError);
        };
        let mark = mark_at(self.position, self.items.len());
        match step(
            self.alloc,
            &mut self.table,
            self.position,
            line,
            mark,
            number,
        ) {
            Ok(next) => {
                add_item(
                    &mut self.items,
                    need_of_statement(&line.statement),
                    self.position,
                )?;
                self.position = next;
                self.lines = number;
                Ok(())
            }
            Err(AsmError::Memory) => Err(AllocError),
            Err(AsmError::Fault(fault)) => {
                self.fault = Some(fault);
                Ok(())
            }
        }
    }

    /// The labels of the lines that were taken, or their first fault.
    pub(crate) fn labels(mut self) -> Result<Labels, AsmError>
        requires some { (taken : List statements.Line) × HasTaken self taken }
        ensures { (taken : List statements.Line) → HasTaken self taken → FindsLabels taken result }
    {
        if let Some(fault) = self.fault {
            return Err(AsmError::Fault(fault));
        }
        self.items.push(DATA_START + self.position.bytes)?;
        Ok(Labels::new(self.table, self.items))
    }

    /// Whether `__start` is not among the labels, and `main` is one of text.
    fn lacks_start(&self) -> bool
        ensures { result ≡ is_lacking (shown self.now.table.entries) }
    {
        match mark_of(&self.table, b"__start") {
            Some(_) => false,
            None => is_in_text(mark_of(&self.table, b"main")),
        }
    }

    /// The second pass over the lines that were taken, or their first fault: a statement in the wrong segment (A8), a label that was
    /// defined before (A5), or a segment that is too large (A9).
    ///
    /// If only `main` is defined, a call of it and an exit are added behind the lines. Returns `Memory` only in the cases in which `take` returns `Err`.
    pub fn finish(mut self) -> Result<SecondPass, AsmError>
        requires some { (taken : List statements.Line) × HasTaken self taken }
        ensures { (taken : List statements.Line) → AreInRange taken → HasTaken self taken → Begins taken result }
    {
        let alloc = self.alloc;
        let added = added_lines(alloc, self.lacks_start())?;
        self.take(&added)?;
        Ok(SecondPass::new(alloc, self.labels()?, added))
    }
}

/// The position after a line, whose labels are put into the table, or the line's fault.
fn step(
    alloc: Global,
    table: &mut Table,
    position: Position,
    line: &Line,
    mark: Mark,
    number: u32,
) -> Result<Position, AsmError>
    requires fits { Fits position.words position.bytes }
    requires range { IsInRange (statement_of line.now.statement) }
    ensures { Steps (shown table.old.entries) position (line_of line.now) mark number result (shown table.new.entries) }
{
    let need = need_of_statement(&line.statement);
    if is_in_wrong_segment(need, position.segment) {
        return Err(AsmError::Fault(AsmFault {
            kind: AsmKind::A8,
            line: number,
        }));
    }
    define_labels(alloc, table, line.labels.as_slice(), mark, number)?;
    match position_after(need, position) {
        Some(next) => Ok(next),
        None => Err(AsmError::Fault(AsmFault {
            kind: AsmKind::A9,
            line: number,
        })),
    }
}

/// Adds the address of the item of a statement that needs this, if there is one.
fn add_item(items: &mut Vec<u32>, need: Need, position: Position) -> Result<(), AllocError>
    requires fits { Fits position.words position.bytes }
    ensures { OnOk result (items.new.items ≡ items.old.items ++ item_in (need_of need) position.bytes) }
{
    match need {
        Need::WordItems(_) => items.push(DATA_START + up_to_multiple(4, position.bytes))?,
        Need::Bytes(_) => items.push(DATA_START + up_to_multiple(1, position.bytes))?,
        Need::Nothing | Need::Words(_) | Need::Switch(_) | Need::Padding(_) => {}
    }
    Ok(())
}
