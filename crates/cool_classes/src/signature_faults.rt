//! Functions that find the faults (compile-time errors) in declarations: unknown types, wrong formal parameters, and methods redefined with another signature
//! (the Cool manual, sections 5 and 6).

ghost use Rattle.std.specs.Prelude.{◌≡◌, ℕ, ◌<◌, ◌^◌, ◌++◌, List, [], ◌∷◌, length, Option, OnOk};
ghost use Rattle.cool_classes.specs.Features.{HasMethod};
ghost use Rattle.cool_classes.specs.Entries.{classes};
ghost use Rattle.cool_classes.specs.OwnNames.{AreTableNames};
ghost use Rattle.cool_classes.specs.FirstNames.{FindsFirst, shown_names};
ghost use Rattle.cool_classes.specs.FeatureFaults.{noted, type_faults, formal_faults, formals_faults, same_types, declared_types, declares_otherwise};

use crate::basic_methods::{basic_result_name, fit_basic};
use crate::fault::{ClassFault, ClassKind};
use crate::first_names::{FirstNames, add_name, first_index};
use crate::method::MethodRef;
use crate::own_names::{TableNames, is_class, method_at};
use crate::self_type::is_self_type;
use cool_syntax::{Formal, MethodDef, Place, TypeRef};
use std::alloc::{AllocError, Global};

/// Notes a fault where a test holds. Returns `Err` only if memory runs out.
pub(crate) fn note(
    faults: &mut Vec<ClassFault>,
    holds: bool,
    kind: ClassKind,
    at: Place,
) -> Result<(), AllocError>
    ensures { OnOk result (faults.new.items ≡ faults.old.items ++ noted holds kind at) }
{
    if holds {
        faults.push(ClassFault { kind, at })?;
    }
    Ok(())
}

/// Notes a type that is neither a class nor `SELF_TYPE` (F6). Returns `Err` only if memory runs out.
pub(crate) fn note_type(
    faults: &mut Vec<ClassFault>,
    table: &TableNames<'_>,
    declared: &TypeRef,
) -> Result<(), AllocError>
    requires table { AreTableNames table.now }
    ensures { OnOk result (faults.new.items ≡ faults.old.items ++ type_faults (classes table.now.entries.now) declared.now) }
{
    let name = declared.name.as_slice();
    let known = is_self_type(name) || is_class(table, name);
    note(faults, !known, ClassKind::F6, declared.at)
}

/// Notes the faults of formals. Returns `Err` only if memory runs out.
pub(crate) fn note_formals(
    alloc: Global,
    faults: &mut Vec<ClassFault>,
    table: &TableNames<'_>,
    formals: &[Formal],
) -> Result<(), AllocError>
    requires table { AreTableNames table.now }
    requires few { length formals.now < 2 ^ 32 }
    ensures { OnOk result (faults.new.items ≡ faults.old.items ++ formals_faults (classes table.now.entries.now) [] formals.now) }
{
    let mut before = FirstNames::new(alloc);
    for index in 0..formals.len() {
        let formal = &formals[index];
        note_formal(faults, table, &before, formal)?;
        add_name(alloc, &mut before, formal.name.as_slice(), index as u32)?;
    }
    Ok(())
}

/// Notes the faults of a formal after those of these names (F3 to F6). Returns `Err` only if memory runs out.
fn note_formal(
    faults: &mut Vec<ClassFault>,
    table: &TableNames<'_>,
    before: &FirstNames,
    formal: &Formal,
) -> Result<(), AllocError>
    requires table { AreTableNames table.now }
    ensures { OnOk result ((row : List (Option (List ℕ))) → FindsFirst (shown_names before.now.entries) row → faults.new.items ≡ faults.old.items ++ formal_faults (classes table.now.entries.now) row formal.now) }
{
    let name = formal.name.as_slice();
    note(faults, name == b"self".as_slice(), ClassKind::F3, formal.at)?;
    let doubled = first_index(before, name).is_some();
    note(faults, doubled, ClassKind::F4, formal.at)?;
    let self_typed = is_self_type(formal.declared.name.as_slice());
    note(faults, self_typed, ClassKind::F5, formal.declared.at)?;
    note_type(faults, table, &formal.declared)
}

/// Whether a method declares other formals or another result than the one above it.
pub(crate) fn declares_otherwise(
    table: &TableNames<'_>,
    method: &MethodDef,
    above: MethodRef,
) -> bool
    requires table { AreTableNames table.now }
    requires has { HasMethod (classes table.now.entries.now) above }
    ensures { result ≡ declares_otherwise (classes table.now.entries.now) method.now above }
{
    let formals = method.formals.as_slice();
    let result = method.result.name.as_slice();
    match above {
        MethodRef::Basic(basic) => {
            !(fit_basic(formals, basic) && result == basic_result_name(basic))
        }
        MethodRef::User { owner, index } => {
            let other = method_at(table, owner, index);
            !(same_formals(formals, other.formals.as_slice())
                && result == other.result.name.as_slice())
        }
    }
}

/// Whether two lists of formals declare the same types.
fn same_formals(left: &[Formal], right: &[Formal]) -> bool
    ensures { result ≡ same_types (declared_types left.now) (declared_types right.now) }
{
    if left.len() != right.len() {
        return false;
    }
    for index in 0..left.len() {
        let name = left[index].declared.name.as_slice();
        if name != right[index].declared.name.as_slice() {
            return false;
        }
    }
    true
}
