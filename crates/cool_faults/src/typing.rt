//! `typed_program` type-checks all features of a class table, and returns the typed program or the first type error of each feature.

ghost use Rattle.std.specs.Prelude.{◌≡◌, ℕ, [], map, IfOk, IfErr, OnOk};
ghost use Rattle.cool_syntax.specs.declared.TheConstants.{MOST_FILES};
ghost use Rattle.cool_rules.specs.Fits.{Fits};
ghost use Rattle.cool_rules.specs.TypedTables.{IsTypedTable};
ghost use Rattle.cool_check.specs.Faults.{AreWithin};
ghost use Rattle.cool_check.specs.TypingFaults.{typing_faults};
ghost use Rattle.cool_faults.specs.declared.fault.Fault.TheVariants as phase;
ghost use Rattle.cool_faults.specs.Phases.{ArePlaced, AreTypingFaults, IsTypeRefusal};

use crate::fault::{Fault, Refusal};
use cool_check::{CheckAllError, TypeFault, check};
use cool_classes::ClassTable;
use cool_rules::TypedProgram;
use cool_syntax::Listed;
use std::alloc::{AllocError, Global};

/// The program of a table.
///
/// `Err(Faults(..))` comes if a feature is not well typed, and holds the first fault of each such feature, in order. `Err(Memory)` comes only if memory
/// runs out.
pub(crate) fn typed_program(alloc: Global, classes: ClassTable) -> Result<TypedProgram, Refusal>
    requires fits { Fits classes MOST_FILES }
    ensures program { IfOk result (λ p. p ≡ classes) }
    ensures typed { OnOk result (typing_faults classes ≡ []) }
    ensures accepted { OnOk result (IsTypedTable classes) }
    ensures exact { IfErr result (AreTypingFaults classes) }
    ensures refusal { IfErr result IsTypeRefusal }
    ensures places { (n : ℕ) → AreWithin n classes → IfErr result (ArePlaced n) }
{
    match check(alloc, classes) {
        Ok(program) => Ok(program),
        Err(CheckAllError::Faults(faults)) => Err(Refusal::Faults(Listed::new(of_typing(
            alloc,
            faults.as_slice(),
        )?))),
        Err(CheckAllError::Memory) => Err(Refusal::Memory),
    }
}

/// Typing faults as faults of files. Returns `Err` only if memory runs out.
pub fn of_typing(alloc: Global, faults: &[TypeFault]) -> Result<Vec<Fault>, AllocError>
    ensures { IfOk result (λ all. all.items ≡ map phase.Typing faults.now) }
{
    faults
        .iter()
        .map(|fault| Fault::Typing(*fault))
        .collect(alloc)
}
