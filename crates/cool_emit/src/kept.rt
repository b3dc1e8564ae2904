//! Stores the assembly lines of the first batches of a program, so that the second pass of the assembler need not generate them again.

ghost use Rattle.std.specs.Prelude.{◌≡◌, ◌≤◌, ◌<◌, ◌^◌, ◌-◌, List, Some, length, slice_get, OnOk};
ghost use Rattle.mips_isa.specs.Lines as assembly;
ghost use Rattle.mips_isa.specs.Lines.{lines_of};
ghost use Rattle.cool_emit.specs.Batches.{AreFirst, HasRoom, IsKept};

use crate::emission::add_lines;
use mips_isa::Line;
use std::alloc::{AllocError, Global};

/// The most lines that are kept. They take 5.6 MB, less than the tokens of 1,000 KiB of Cool, which are gone by then: so a build of these takes no
/// more memory than their check.
pub const MOST_KEPT_LINES: usize = 100_000;

/// The lines of the first batches of a program, so many of them.
#[derive(Drop)]
pub(crate) struct Kept {
    pub(crate) batches: usize,
    pub(crate) lines: Vec<Line>,
}

impl Kept {
    /// No batches.
    pub(crate) fn new(alloc: Global) -> Kept
        ensures first { (all : List (List assembly.Line)) → AreFirst all result }
        ensures few { length result.lines.items ≤ MOST_KEPT_LINES }
    {
        Kept {
            batches: 0,
            lines: Vec::new(alloc),
        }
    }

    /// Keeps the lines of the batch of this number, exactly where those of all before it are kept and there is room; else lets them go. Returns `Err` only
    /// if memory runs out.
    pub(crate) fn keep(&mut self, number: usize, lines: Vec<Line>) -> Result<(), AllocError>
        requires number { number < 2 ^ 64 - 1 }
        requires few { length self.old.lines.items ≤ MOST_KEPT_LINES }
        ensures first { (all : List (List assembly.Line)) → AreFirst all self.old → slice_get all number ≡ Some (lines_of lines.items) → OnOk result (AreFirst all self.new) }
        ensures few { OnOk result (length self.new.lines.items ≤ MOST_KEPT_LINES) }
        ensures kept { HasRoom self.old number (length lines.items) → OnOk result (IsKept self.old (lines_of lines.items) self.new) }
        ensures left { (HasRoom self.old number (length lines.items) → ⊥) → OnOk result (self.new ≡ self.old) }
    {
        let room = MOST_KEPT_LINES - self.lines.len();
        if number == self.batches && lines.len() <= room {
            add_lines(&mut self.lines, lines)?;
            self.batches = number + 1;
        }
        Ok(())
    }
}
