//! The labels of lines of assembly, with the segment and address of each.

ghost use Rattle.std.specs.Prelude.{◌≡◌};
ghost use Rattle.mips_isa.specs.Lines.{lines_of, AreInRange};
ghost use Rattle.mips_asm.specs.Passes.{shown, FindsLabels};
ghost use Rattle.mips_asm.specs.Places.{place_at, places_of};

use crate::first_pass::FirstPass;
use crate::mark::Mark;
use crate::table::{Table, mark_of};
use mips_isa::{AsmError, Line, Place, Segment};
use std::alloc::Global;
use std::marker::Model;

/// The labels of lines and their places. A contract sees the place of each name.
#[derive(Drop)]
pub struct Labels {
    table: Table,
    items: Vec<u32>,
}

impl Model for Labels {
    ghost use Rattle.mips_asm.specs.Passes.{shown};
    ghost use Rattle.mips_asm.specs.Places.{LabelParts};

    ghost Value = { LabelParts };

    ghost view = { λ s. (shown s.table.entries, s.items.items) };
}

impl Labels {
    /// The labels of a table, if these are the addresses of the items of data, and of the end of the data.
    pub fn new(table: Table, items: Vec<u32>) -> Self
        ensures { result ≡ (shown table.entries, items.items) }
    {
        Labels { table, items }
    }

    /// The labels of lines, or the first fault of the first pass.
    pub fn find(alloc: Global, lines: &[Line]) -> Result<Self, AsmError>
        requires ranges { AreInRange (lines_of lines.now) }
        ensures { FindsLabels (lines_of lines.now) result }
    {
        let mut pass = FirstPass::new(alloc);
        pass.take(lines)?;
        pass.labels()
    }

    /// The place of a label, if it is defined.
    pub fn place(&self, name: &[u8]) -> Option<Place>
        ensures { result ≡ places_of self.now name.now }
    {
        place_of_mark(&self.items, mark_of(&self.table, name))
    }
}

/// The place of a label, by its mark.
fn place_of_mark(items: &[u32], mark: Option<Mark>) -> Option<Place>
    ensures { result ≡ place_at items.now mark }
{
    match mark? {
        Mark::InText(address) => Some(Place {
            segment: Segment::Text,
            address,
        }),
        Mark::BeforeItem(number) => Some(Place {
            segment: Segment::Data,
            address: *items.get(number)?,
        }),
    }
}
