//! The function `check`: it type-checks all features of a program, and returns the typed program or the type errors.

ghost use Rattle.std.specs.Prelude.{◌≡◌, ◌<◌, ℕ, List, [], ◌++◌, length, IfOk, IfErr, OnOk};
ghost use Rattle.std.specs.List.{AllByRecursion};
ghost use Rattle.std.specs.List.Sorted.{IsPermutation};
ghost use Rattle.cool_syntax.specs.declared.TheConstants.{MOST_FILES};
ghost use Rattle.cool_syntax.specs.FaultOrder.{AreInOrder};
ghost use Rattle.cool_syntax.specs.TokenFacts.{IsPlaced};
ghost use Rattle.cool_syntax.specs.TreesWithinLimits.{IsFeatureWithin};
ghost use Rattle.cool_classes.specs.declared.class_id.ClassId as number;
ghost use Rattle.cool_classes.specs.Chains.{features_of};
ghost use Rattle.cool_classes.specs.LawfulTables.{IsLawful};
ghost use Rattle.cool_classes.specs.Tables.{IsWholeTable};
ghost use Rattle.cool_rules.specs.NodeTypes.{columns_of, features_types, table_types};
ghost use Rattle.cool_rules.specs.TypedTables.{IsTypedTable};
ghost use Rattle.cool_rules.specs.Fits.{Fits};
ghost use Rattle.cool_check.specs.Faults.{AreWithin, IsPlacedRefusal, IsRefusal, standing_of};
ghost use Rattle.cool_check.specs.TypingFaults.{IsExactRefusal, features_faults, typing_faults};

use crate::fault::{CheckAllError, CheckError, TypeFault};
use crate::feature::{attribute_scope, check_among};
use cool_classes::{ClassId, ClassTable};
use cool_rules::{NodeTypes, TypedProgram};
use cool_syntax::Listed;
use std::alloc::{AllocError, Global};

/// The findings in classes: the first fault of each feature that has one, and the types of the nodes of the expressions of all others, class by class.
#[derive(Drop)]
struct Findings {
    faults: Vec<TypeFault>,
    types: Vec<Vec<NodeTypes>>,
}

/// Checks all features of a program (Cool manual, section 12).
///
/// `Ok` comes exactly if each feature is well typed. `Err(Faults(..))` comes exactly if one is not: it holds the first fault of each such feature
/// (`specs/TypingFaults.antt`), in the order of files, bytes and kinds. `Err(Memory)` comes only if memory runs out.
pub fn check(alloc: Global, t: ClassTable) -> Result<TypedProgram, CheckAllError>
    requires fits { Fits t MOST_FILES }
    ensures program { IfOk result (λ p. p ≡ t) }
    ensures typed { OnOk result (typing_faults t ≡ []) }
    ensures accepted { OnOk result (IsTypedTable t) }
    ensures exact { IfErr result (IsExactRefusal t) }
    ensures refusal { IfErr result IsRefusal }
    ensures places { (n : ℕ) → AreWithin n t → IfErr result (IsPlacedRefusal n) }
{
    let Findings { faults, types } = check_classes(alloc, &t)?;
    if faults.is_empty() {
        return Ok(TypedProgram::new(t, types));
    }
    Err(CheckAllError::Faults(Listed::new(in_order(faults))))
}

/// Typing faults in the order of files, bytes, kinds and lines. It takes no memory.
pub fn in_order(mut faults: Vec<TypeFault>) -> Vec<TypeFault>
    ensures permutation { IsPermutation faults.items result.items }
    ensures order { AreInOrder standing_of result.items }
    ensures length { length result.items ≡ length faults.items }
    ensures places { (n : ℕ) → AllByRecursion (λ f. IsPlaced n f.at) faults.items → AllByRecursion (λ f. IsPlaced n f.at) result.items }
{
    faults.sort_unstable_by_key(|fault| (fault.at.file, fault.at.byte, fault.kind, fault.at.line));
    faults
}

/// Checks all features of all classes. Returns `Err` only if memory runs out.
fn check_classes(alloc: Global, t: &ClassTable) -> Result<Findings, AllocError>
    ensures faults { IfOk result (λ found. found.faults.items ≡ typing_faults t.now) }
    ensures types { IfOk result (λ found. found.faults.items ≡ [] → columns_of found.types.items ≡ table_types t.now) }
    ensures whole { OnOk result (IsWholeTable t.now) }
    ensures lawful { OnOk result (IsLawful t.now) }
    ensures places { (n : ℕ) → AreWithin n t.now → IfOk result (λ found. AllByRecursion (λ f. IsPlaced n f.at) found.faults.items) }
{
    let mut faults = Vec::new(alloc);
    let mut types = Vec::new(alloc);
    for number in 0..t.count() {
        types.push(check_class(alloc, t, ClassId(number), &mut faults)?)?;
    }
    Ok(Findings { faults, types })
}

/// Checks all features of a class, and adds the first fault of each that has one. Gives the types of the nodes of the expressions of all others. Returns
/// `Err` only if memory runs out.
fn check_class(
    alloc: Global,
    t: &ClassTable,
    c: ClassId,
    faults: &mut Vec<TypeFault>,
) -> Result<Vec<NodeTypes>, AllocError>
    requires whole { IsWholeTable t.now }
    requires lawful { IsLawful t.now }
    requires class { c.0 < length t.now }
    ensures faults { OnOk result (faults.new.items ≡ faults.old.items ++ features_faults t.now c (features_of t.now c)) }
    ensures types { IfOk result (λ types. faults.new.items ≡ [] → types.items ≡ features_types t.now c (features_of t.now c)) }
    ensures places { (n : ℕ) → AllByRecursion (IsFeatureWithin n) (features_of t.now c) → AllByRecursion (λ f. IsPlaced n f.at) faults.old.items → OnOk result (AllByRecursion (λ f. IsPlaced n f.at) faults.new.items) }
{
    let features = t.features(c);
    let attributes = attribute_scope(alloc, t, c)?;
    let mut types = Vec::new(alloc);
    for index in 0..features.len() {
        match check_among(alloc, t, c, &attributes, index as u32, &features[index]) {
            Ok(found) => types.push(found)?,
            Err(CheckError::Fault(fault)) => faults.push(fault)?,
            Err(CheckError::Memory) => return Err(AllocError),
        }
    }
    Ok(types)
}
