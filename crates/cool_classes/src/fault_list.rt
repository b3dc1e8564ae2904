//! Functions on lists of faults (compile-time errors): they add a fault, sort the faults, and return them as an error.

ghost use Rattle.std.specs.Prelude.{◌≡◌, ◌⊎◌, ℕ, [], OnOk, IfErr};
ghost use Rattle.std.specs.List.{AllByRecursion};
ghost use Rattle.std.specs.List.Sorted.{IsPermutation};
ghost use Rattle.cool_syntax.specs.FaultOrder.{AreInOrder};
ghost use Rattle.cool_syntax.specs.TokenFacts.{IsPlaced};
ghost use Rattle.cool_classes.specs.declared.fault.ClassFault as fault;
ghost use Rattle.cool_classes.specs.FaultLists.{IsOfClasses, IsOfFeatures, standing_of, HasExactly, IsRefusal, IsPlacedRefusal};
ghost use Rattle.cool_classes.specs.Settled.{with_fault};

use crate::fault::{ClassFault, ClassKind, TableError};
use cool_syntax::{Listed, Place};
use std::alloc::AllocError;

/// Adds a fault of this kind, where there is one. Returns `Err` only if memory runs out.
pub(crate) fn add_fault(
    faults: &mut Vec<ClassFault>,
    kind: Option<ClassKind>,
    at: Place,
) -> Result<(), AllocError>
    ensures { OnOk result (faults.new.items ≡ with_fault kind at faults.old.items) }
{
    if let Some(kind) = kind {
        faults.push(ClassFault { kind, at })?;
    }
    Ok(())
}

/// Refuses if there are faults, with them in order. Returns `Err` then, or if memory runs out.
pub(crate) fn refuse_faults(mut faults: Vec<ClassFault>) -> Result<(), TableError>
    requires phase { AllByRecursion IsOfClasses faults.items ⊎ AllByRecursion IsOfFeatures faults.items }
    ensures none { OnOk result (faults.items ≡ []) }
    ensures exact { IfErr result (HasExactly faults.items) }
    ensures refusal { IfErr result IsRefusal }
    ensures places { (n : ℕ) → AllByRecursion (λ (f : fault.ClassFault). IsPlaced n f.at) faults.items → IfErr result (IsPlacedRefusal n) }
{
    if faults.is_empty() {
        return Ok(());
    }
    sort_faults(&mut faults)?;
    Err(TableError::Faults(Listed::new(faults)))
}

/// Puts faults in the order of their files, their bytes, their kinds and their lines. Returns `Err` only if memory runs out.
fn sort_faults(faults: &mut Vec<ClassFault>) -> Result<(), AllocError>
    ensures order { OnOk result (AreInOrder standing_of faults.new.items) }
    ensures same { IsPermutation faults.old.items faults.new.items }
{
    faults.sort_by_key(|fault| (fault.at.file, fault.at.byte, fault.kind, fault.at.line))?;
    Ok(())
}
