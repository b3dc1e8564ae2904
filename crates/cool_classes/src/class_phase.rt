//! The function `settle_classes`: it finds the name, parent and depth of each class, or the compile-time errors in class names, parents, cycles of inheritance
//! and the number of classes (the Cool manual, section 3).

ghost use Rattle.std.specs.Prelude.{◌≡◌, ℕ, ◌-◌, ◌<◌, ◌≤◌, ◌^◌, ◌≢◌, List, [], ◌++◌, length, IfOk, IfErr, OnOk, IfSome, IfNone, IsSome, false};
ghost use Rattle.std.specs.List.{AllByRecursion};
ghost use Rattle.cool_syntax.specs.TreesWithinLimits.{IsTypeWithin, AreClassesWithin};
ghost use Rattle.cool_syntax.specs.declared.file_tree.ClassDef as tree;
ghost use Rattle.cool_classes.specs.ClassFaults.{name_kind, names_faults, is_barred, parent_kind, parent_faults, parents_faults, cycle_faults, main_faults, number_faults, HasClassPhase, HasClassFaults};
ghost use Rattle.cool_classes.specs.FaultLists.{rank, IsRefusal, IsPlacedRefusal};
ghost use Rattle.cool_classes.specs.FirstNames.{FindsNames};
ghost use Rattle.cool_classes.specs.Names.{self_type};
ghost use Rattle.cool_classes.specs.Settled.{basic_names, names_with_basic, parent_meant, parents_meant, IsParentKnown, AreNamedAnew, AreSettled, AddsFaults};

use crate::MOST_CLASSES;
use crate::basic_classes::{BASIC_CLASSES, basic_names};
use crate::class_id::{BOOL, ClassId, INT, OBJECT, STRING};
use crate::depths::depths;
use crate::fault::{ClassFault, ClassKind, TableError};
use crate::fault_list::{add_fault, refuse_faults};
use crate::first_names::{FirstNames, add_name, first_index};
use crate::lookup::class_named;
use crate::self_type::is_self_type;
use cool_syntax::{ClassDef, Place, TypeRef};
use std::alloc::{AllocError, Global};

/// The definitions as the table will have them: the names of all classes, and the parent of each definition and its depth.
#[derive(Drop)]
pub(crate) struct Ancestry {
    pub(crate) names: FirstNames,
    pub(crate) parents: Vec<ClassId>,
    pub(crate) depths: Vec<Option<u32>>,
}

/// The definitions as the table will have them. Returns `Err` with the faults C1 to C7 in their order if there are any, or if memory runs out.
pub(crate) fn settle_classes(
    alloc: Global,
    definitions: &[ClassDef],
) -> Result<Ancestry, TableError>
    requires few { length definitions.now < 2 ^ 32 - 5 }
    ensures names { IfOk result (λ found. FindsNames found.names.entries (names_with_basic definitions.now)) }
    ensures parents { IfOk result (λ found. found.parents.items ≡ parents_meant (names_with_basic definitions.now) definitions.now) }
    ensures settled { IfOk result (λ found. AreSettled definitions.now found.depths.items) }
    ensures faultless { OnOk result (HasClassPhase definitions.now []) }
    ensures exact { IfErr result (HasClassFaults definitions.now) }
    ensures refusal { IfErr result IsRefusal }
    ensures places { (n : ℕ) → 0 < n → AreClassesWithin n definitions.now → IfErr result (IsPlacedRefusal n) }
{
    let mut faults = Vec::new(alloc);
    let names = find_names(alloc, definitions, &mut faults)?;
    let parents = find_parents(alloc, definitions, &names, &mut faults)?;
    let found = depths(alloc, &parents)?;
    check_whole(definitions, &names, &found.cyclic, &mut faults)?;
    refuse_faults(faults)?;
    Ok(Ancestry {
        names,
        parents,
        depths: found.known,
    })
}

/// Adds C5, C6 and C7: for these definitions, which stand on cycles, where no class is named Main, and for the definition past the most. Returns `Err` only
/// if memory runs out.
fn check_whole(
    definitions: &[ClassDef],
    names: &FirstNames,
    cyclic: &[usize],
    faults: &mut Vec<ClassFault>,
) -> Result<(), AllocError>
    requires within { AllByRecursion (λ (k : ℕ). k < length definitions.now) cyclic.now }
    ensures adds { OnOk result (AddsFaults (λ n. (0 < n) × AreClassesWithin n definitions.now) faults.old.items faults.new.items) }
    ensures exact { OnOk result ((all : List (List ℕ)) → FindsNames names.now.entries all → faults.new.items ≡ faults.old.items ++ (cycle_faults definitions.now cyclic.now ++ (main_faults all ++ number_faults definitions.now))) }
    ensures none { OnOk result (faults.new.items ≡ [] → cyclic.now ≡ []) }
    ensures few { OnOk result (faults.new.items ≡ [] → length definitions.now ≤ MOST_CLASSES) }
{
    add_cyclic(definitions, cyclic, faults)?;
    check_main(names, faults)?;
    check_number(definitions, faults)?;
    Ok(())
}

/// The first class of each name, the basic classes first. Adds C1 and C2 for the names of definitions. Returns `Err` only if memory runs out.
fn find_names(
    alloc: Global,
    definitions: &[ClassDef],
    faults: &mut Vec<ClassFault>,
) -> Result<FirstNames, AllocError>
    requires few { length definitions.now < 2 ^ 32 - 5 }
    ensures finds { IfOk result (λ names. FindsNames names.entries (names_with_basic definitions.now)) }
    ensures adds { OnOk result (AddsFaults (λ n. AreClassesWithin n definitions.now) faults.old.items faults.new.items) }
    ensures exact { OnOk result (faults.new.items ≡ faults.old.items ++ names_faults basic_names definitions.now) }
    ensures anew { OnOk result (faults.new.items ≡ [] → AreNamedAnew definitions.now (length definitions.now)) }
{
    let mut names = basic_names(alloc)?;
    for index in 0..definitions.len() {
        let definition = &definitions[index];
        let name = definition.name.as_slice();
        let known = first_index(&names, name).is_some();
        add_name(alloc, &mut names, name, index as u32 + BASIC_CLASSES)?;
        add_fault(faults, name_fault(name, known), definition.at)?;
    }
    Ok(names)
}

/// The fault of a class of this name: C2 where it is `SELF_TYPE`, else C1 where an earlier class has it.
fn name_fault(name: &[u8], known: bool) -> Option<ClassKind>
    ensures exact { result ≡ name_kind name.now known }
    ensures kind { IfSome result (λ kind. rank kind < 7) }
    ensures no_self_type { IfNone result (name.now ≢ self_type) }
    ensures anew { IfNone result (known ≡ false) }
{
    if is_self_type(name) {
        Some(ClassKind::C2)
    } else if known {
        Some(ClassKind::C1)
    } else {
        None
    }
}

/// The parent of each definition. Adds C2, C3 and C4 for their names. Returns `Err` only if memory runs out.
fn find_parents(
    alloc: Global,
    definitions: &[ClassDef],
    names: &FirstNames,
    faults: &mut Vec<ClassFault>,
) -> Result<Vec<ClassId>, AllocError>
    requires finds { FindsNames names.now.entries (names_with_basic definitions.now) }
    ensures parents { IfOk result (λ parents. parents.items ≡ parents_meant (names_with_basic definitions.now) definitions.now) }
    ensures adds { OnOk result (AddsFaults (λ n. AreClassesWithin n definitions.now) faults.old.items faults.new.items) }
    ensures exact { OnOk result (faults.new.items ≡ faults.old.items ++ parents_faults (names_with_basic definitions.now) definitions.now) }
    ensures known { OnOk result (faults.new.items ≡ [] → AllByRecursion (λ (d : tree.ClassDef). IsParentKnown (names_with_basic definitions.now) d.parent) definitions.now) }
{
    let mut parents = Vec::new(alloc);
    for definition in definitions {
        let parent = find_parent(names, &definition.parent, faults)?;
        parents.push(parent)?;
    }
    Ok(parents)
}

/// The parent of a definition: Object where it names none or no class. Adds C2, C3 or C4. Returns `Err` only if memory runs out.
fn find_parent(
    names: &FirstNames,
    parent: &Option<TypeRef>,
    faults: &mut Vec<ClassFault>,
) -> Result<ClassId, AllocError>
    ensures parent { IfOk result (λ class. (all : List (List ℕ)) → FindsNames names.now.entries all → class ≡ parent_meant all parent.now) }
    ensures adds { OnOk result (AddsFaults (λ n. IfSome parent.now (IsTypeWithin n)) faults.old.items faults.new.items) }
    ensures exact { OnOk result ((all : List (List ℕ)) → FindsNames names.now.entries all → faults.new.items ≡ faults.old.items ++ parent_faults all parent.now) }
    ensures known { OnOk result (faults.new.items ≡ [] → (all : List (List ℕ)) → FindsNames names.now.entries all → IsParentKnown all parent.now) }
{
    match parent {
        None => Ok(OBJECT),
        Some(named) => {
            let class = class_named(names, named.name.as_slice());
            add_fault(faults, parent_fault(named.name.as_slice(), class), named.at)?;
            Ok(class.unwrap_or(OBJECT))
        }
    }
}

/// The fault of a parent of this name: C2 where it is `SELF_TYPE`, C3 where no class has it, C4 where it is one of the
/// basic classes from which none may inherit.
fn parent_fault(name: &[u8], class: Option<ClassId>) -> Option<ClassKind>
    ensures exact { result ≡ parent_kind name.now class }
    ensures kind { IfSome result (λ kind. rank kind < 7) }
    ensures known { IfNone result (IsSome class) }
{
    if is_self_type(name) {
        return Some(ClassKind::C2);
    }
    match class {
        None => Some(ClassKind::C3),
        Some(class) if is_barred(class) => Some(ClassKind::C4),
        Some(_) => None,
    }
}

/// Whether this is one of the classes Int, Bool and String.
fn is_barred(class: ClassId) -> bool
    ensures { result ≡ is_barred class }
{
    class == INT || class == BOOL || class == STRING
}

/// Adds C5 for each of these definitions, which stand on cycles. Returns `Err` only if memory runs out.
fn add_cyclic(
    definitions: &[ClassDef],
    cyclic: &[usize],
    faults: &mut Vec<ClassFault>,
) -> Result<(), AllocError>
    requires within { AllByRecursion (λ (k : ℕ). k < length definitions.now) cyclic.now }
    ensures adds { OnOk result (AddsFaults (λ n. AreClassesWithin n definitions.now) faults.old.items faults.new.items) }
    ensures exact { OnOk result (faults.new.items ≡ faults.old.items ++ cycle_faults definitions.now cyclic.now) }
    ensures none { OnOk result (faults.new.items ≡ [] → cyclic.now ≡ []) }
{
    for class in cyclic {
        add_fault(faults, Some(ClassKind::C5), definitions[*class].at)?;
    }
    Ok(())
}

/// Adds C6 where no class is named Main. Returns `Err` only if memory runs out.
fn check_main(names: &FirstNames, faults: &mut Vec<ClassFault>) -> Result<(), AllocError>
    ensures exact { OnOk result ((all : List (List ℕ)) → FindsNames names.now.entries all → faults.new.items ≡ faults.old.items ++ main_faults all) }
    ensures adds { OnOk result (AddsFaults (λ n. 0 < n) faults.old.items faults.new.items) }
{
    if class_named(names, b"Main").is_none() {
        let at = Place {
            file: 0,
            line: 1,
            byte: 0,
        };
        add_fault(faults, Some(ClassKind::C6), at)?;
    }
    Ok(())
}

/// Adds C7 for the definition past the most, where there is one. Returns `Err` only if memory runs out.
fn check_number(definitions: &[ClassDef], faults: &mut Vec<ClassFault>) -> Result<(), AllocError>
    ensures adds { OnOk result (AddsFaults (λ n. AreClassesWithin n definitions.now) faults.old.items faults.new.items) }
    ensures exact { OnOk result (faults.new.items ≡ faults.old.items ++ number_faults definitions.now) }
    ensures few { OnOk result (faults.new.items ≡ [] → length definitions.now ≤ MOST_CLASSES) }
{
    if definitions.len() > MOST_CLASSES {
        add_fault(faults, Some(ClassKind::C7), definitions[MOST_CLASSES].at)?;
    }
    Ok(())
}
