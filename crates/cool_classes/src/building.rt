//! The function `table`: it builds the class table from the syntax trees of source files, or returns the faults (compile-time errors) of their classes and
//! features.

ghost use Rattle.std.specs.Prelude.{◌≡◌, ℕ, ◌<◌, [], map, IfOk, IfErr, OnOk, Some};
ghost use Rattle.cool_syntax.specs.declared.file_tree.ClassDef as tree;
ghost use Rattle.cool_syntax.specs.TreesWithinLimits.{AreClassesWithin};
ghost use Rattle.cool_classes.specs.ClassFaults.{classes_meant, feature_phase, HasClassPhase, HasTableFaults};
ghost use Rattle.cool_classes.specs.ClassRows.{HasRows, HasNoRow};
ghost use Rattle.cool_classes.specs.Definitions.{definitions, AreFew, IsTableOf};
ghost use Rattle.cool_classes.specs.FaultLists.{IsRefusal, IsPlacedRefusal};
ghost use Rattle.cool_classes.specs.Limits.{KeepsLimits};
ghost use Rattle.cool_classes.specs.Tables.{IsTable};
ghost use Rattle.cool_classes.specs.Settled.{names_with_basic, parents_meant, entries_of, AreSettled};

use crate::basic_classes::basic_entries;
use crate::class_id::ClassId;
use crate::class_phase::{Ancestry, settle_classes};
use crate::class_table::ClassTable;
use crate::entry::Entry;
use crate::fault::TableError;
use crate::fault_list::refuse_faults;
use crate::feature_phase::feature_faults;
use crate::own_names::{TableNames, names_of};
use cool_syntax::{ClassDef, FileTree, Place};
use std::alloc::{AllocError, Global};

/// The table of the classes that these files define (the Cool manual, sections 3 to 8).
///
/// Returns `Err` if memory runs out, or with faults. They are the faults C1 to C7 of the classes if there are any, else the faults F1 to F9 of their
/// features; each list is whole, and in the order of files, bytes and kinds.
pub fn table(alloc: Global, files: Vec<FileTree>) -> Result<ClassTable, TableError>
    requires few { AreFew (definitions files.items) }
    ensures whole { IfOk result IsTable }
    ensures table { IfOk result (IsTableOf (definitions files.items)) }
    ensures limits { IfOk result KeepsLimits }
    ensures classes { IfOk result (λ table. table ≡ classes_meant (definitions files.items)) }
    ensures faultless { OnOk result (HasClassPhase (definitions files.items) [] × (feature_phase (definitions files.items) ≡ [])) }
    ensures exact { IfErr result (HasTableFaults (definitions files.items)) }
    ensures rows { IfErr result (HasRows (definitions files.items)) }
    ensures no_rows { OnOk result (HasNoRow (definitions files.items)) }
    ensures refusal { IfErr result IsRefusal }
    ensures places { (n : ℕ) → 0 < n → AreClassesWithin n (definitions files.items) → IfErr result (IsPlacedRefusal n) }
{
    let definitions = definitions_of(alloc, files)?;
    let ancestry = settle_classes(alloc, &definitions)?;
    let places = places_of(alloc, &definitions)?;
    let entries = entries_of(alloc, definitions, &ancestry)?;
    let names = names_of(alloc, &entries, ancestry.names)?;
    let faults = feature_faults(alloc, &names, &places)?;
    refuse_faults(faults)?;
    let TableNames {
        entries: _,
        classes,
        own,
    } = names;
    Ok(ClassTable::from_entries(entries, classes, own))
}

/// The definitions of all files, in order. Returns `Err` only if memory runs out.
fn definitions_of(alloc: Global, files: Vec<FileTree>) -> Result<Vec<ClassDef>, AllocError>
    ensures { IfOk result (λ all. all.items ≡ definitions files.items) }
{
    let mut all = Vec::new(alloc);
    for file in files {
        all.append(&mut file.classes.into_vec())?;
    }
    Ok(all)
}

/// The places of the names of definitions. Returns `Err` only if memory runs out.
fn places_of(alloc: Global, definitions: &[ClassDef]) -> Result<Vec<Place>, AllocError>
    ensures { IfOk result (λ places. places.items ≡ map (λ (d : tree.ClassDef). d.at) definitions.now) }
{
    let mut places = Vec::new(alloc);
    for definition in definitions {
        places.push(definition.at)?;
    }
    Ok(places)
}

/// The entries of the basic classes and of definitions without faults. Returns `Err` only if memory runs out.
fn entries_of(
    alloc: Global,
    definitions: Vec<ClassDef>,
    ancestry: &Ancestry,
) -> Result<Vec<Entry>, AllocError>
    requires parents { ancestry.now.parents.items ≡ parents_meant (names_with_basic definitions.items) definitions.items }
    requires settled { AreSettled definitions.items ancestry.now.depths.items }
    ensures { IfOk result (λ entries. entries.items ≡ entries_of definitions.items ancestry.now.depths.items) }
{
    let mut entries = basic_entries(alloc)?;
    let mut index = 0;
    for definition in definitions {
        let depth = match ancestry.depths[index] {
            Some(depth) => depth,
            None => unreachable!(),
        };
        let parent = ancestry.parents[index];
        entries.push(entry_of(definition, parent, depth))?;
        index += 1;
    }
    Ok(entries)
}

/// The entry of a definition, below this parent and this deep.
fn entry_of(definition: ClassDef, parent: ClassId, depth: u32) -> Entry
    ensures { result ≡ record { name = definition.name; parent = Some parent; depth = depth; features = definition.features } }
{
    let ClassDef {
        name,
        at: _,
        parent: _,
        features,
    } = definition;
    Entry {
        name,
        parent: Some(parent),
        depth,
        features,
    }
}
