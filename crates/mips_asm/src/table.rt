//! The symbol table of the assembler: each label with its position.

ghost use Rattle.std.specs.Prelude.{◌≡◌, bytes_eq};
ghost use Rattle.std.specs.Map.{lookup};
ghost use Rattle.mips_asm.specs.Passes.{shown, Defines};

use crate::mark::Mark;
use indexmap::IndexMap;
use mips_isa::{AsmError, AsmFault, AsmKind, Label};
use std::alloc::Global;

/// Each label, with its mark.
pub type Table = IndexMap<Vec<u8>, Mark>;

/// The mark of the label of this name, if it is defined.
pub fn mark_of(table: &Table, name: &[u8]) -> Option<Mark>
    ensures { result ≡ lookup (bytes_eq name.now) (shown table.now.entries) }
{
    table.get(name).copied()
}

/// Puts the labels of a line into the table. A label that was defined before is a fault.
pub fn define_labels(
    alloc: Global,
    table: &mut Table,
    labels: &[Label],
    mark: Mark,
    number: u32,
) -> Result<(), AsmError>
    ensures { Defines (shown table.old.entries) labels.now mark number result (shown table.new.entries) }
{
    for label in labels {
        let name = Vec::from_slice(alloc, label.as_slice())?;
        let before = table.insert(name, mark)?;
        if before.is_some() {
            return Err(AsmError::Fault(AsmFault {
                kind: AsmKind::A5,
                line: number,
            }));
        }
    }
    Ok(())
}
