//! `class_table` builds the class table from the syntax trees of all files, or returns the errors of classes and features.

ghost use Rattle.std.specs.Prelude.{◌≡◌, ◌<◌, ℕ, [], map, IfOk, IfErr, OnOk};
ghost use Rattle.cool_syntax.specs.TreesWithinLimits.{AreClassesWithin};
ghost use Rattle.cool_classes.specs.ClassFaults.{classes_meant, feature_phase, HasClassPhase};
ghost use Rattle.cool_classes.specs.Definitions.{definitions, AreFew, IsTableOf};
ghost use Rattle.cool_classes.specs.Limits.{KeepsLimits};
ghost use Rattle.cool_classes.specs.Tables.{IsTable};
ghost use Rattle.cool_faults.specs.declared.fault.Fault.TheVariants as phase;
ghost use Rattle.cool_faults.specs.Phases.{ArePlaced, AreTableFaults, IsClassRefusal};

use crate::fault::{Fault, Refusal};
use cool_classes::{ClassFault, ClassTable, TableError, table};
use cool_syntax::{FileTree, Listed};
use std::alloc::{AllocError, Global};

/// The class table of the trees.
///
/// `Err(Faults(..))` comes if their classes or features have faults, and holds them in order. `Err(Memory)` comes only if memory runs out.
pub(crate) fn class_table(alloc: Global, trees: Vec<FileTree>) -> Result<ClassTable, Refusal>
    requires few { AreFew (definitions trees.items) }
    ensures of { IfOk result (IsTableOf (definitions trees.items)) }
    ensures limits { IfOk result KeepsLimits }
    ensures whole { IfOk result IsTable }
    ensures classes { IfOk result (λ p. p ≡ classes_meant (definitions trees.items)) }
    ensures faultless { OnOk result (HasClassPhase (definitions trees.items) [] × (feature_phase (definitions trees.items) ≡ [])) }
    ensures exact { IfErr result (AreTableFaults (definitions trees.items)) }
    ensures refusal { IfErr result IsClassRefusal }
    ensures places { (n : ℕ) → 0 < n → AreClassesWithin n (definitions trees.items) → IfErr result (ArePlaced n) }
{
    match table(alloc, trees) {
        Ok(classes) => Ok(classes),
        Err(TableError::Faults(faults)) => Err(Refusal::Faults(Listed::new(of_classes(
            alloc,
            faults.as_slice(),
        )?))),
        Err(TableError::Memory) => Err(Refusal::Memory),
    }
}

/// The faults as faults of files. Returns `Err` only if memory runs out.
fn of_classes(alloc: Global, faults: &[ClassFault]) -> Result<Vec<Fault>, AllocError>
    ensures { IfOk result (λ all. all.items ≡ map phase.Class faults.now) }
{
    faults
        .iter()
        .map(|fault| Fault::Class(*fault))
        .collect(alloc)
}
