//! The function `feature_faults`: it finds the faults (compile-time errors) in the features of all classes (the Cool manual, sections 5, 6 and 8, and the
//! limits of this compiler).

ghost use Rattle.std.specs.Prelude.{◌≡◌, ◌<◌, ◌^◌, ◌+◌, ◌++◌, ℕ, [], length, IfOk, OnOk};
ghost use Rattle.std.specs.List.{AllByRecursion};
ghost use Rattle.cool_syntax.specs.TokenFacts.{IsPlaced};
ghost use Rattle.cool_classes.specs.ClassFaults.{features_from};
ghost use Rattle.cool_classes.specs.Definitions.{HasFewFormals};
ghost use Rattle.cool_classes.specs.Entries.{classes};
ghost use Rattle.cool_classes.specs.FaultLists.{IsOfFeatures};
ghost use Rattle.cool_classes.specs.Lineages.{IsLineage, AreCounts};
ghost use Rattle.cool_classes.specs.OwnNames.{AreTableNames};
ghost use Rattle.cool_classes.specs.Resolved.{AreGood, ArePlaced};
ghost use Rattle.cool_classes.specs.Features.{implementation};
ghost use Rattle.cool_classes.specs.Chains.{features_of};
ghost use Rattle.cool_classes.specs.FeatureFaults.{redefines_otherwise, is_doubled, method_faults, attribute_faults, one_feature_faults, features_faults, lacks_main, class_faults};

use crate::basic_classes::BASIC_CLASSES;
use crate::class_id::ClassId;
use crate::fault::{ClassFault, ClassKind};
use crate::feature_limits::{Counts, counts_of, is_over_limit};
use crate::first_names::{first_index, is_first_at};
use crate::lineage::{Lineage, lineage_of};
use crate::own_names::{TableNames, have_attribute, method_at, nearest_method};
use crate::signature_faults::{declares_otherwise, note, note_formals, note_type};
use cool_syntax::{AttributeDef, Feature, MethodDef, Place};
use std::alloc::{AllocError, Global};

/// The faults of the features of all classes, F1 to F9 as `ClassKind` defines them, in no promised order. The places are those of the names of the classes
/// after the basic ones, in order. Returns `Err` only if memory runs out. The cost is that of climbing from each feature to the first class above it that
/// has its name.
pub(crate) fn feature_faults(
    alloc: Global,
    table: &TableNames<'_>,
    places: &[Place],
) -> Result<Vec<ClassFault>, AllocError>
    requires table { AreTableNames table.now }
    requires places { length places.now + 5 ≡ length table.now.entries.now }
    ensures exact { IfOk result (λ faults. faults.items ≡ features_from (classes table.now.entries.now) 5 places.now) }
    ensures kinds { IfOk result (λ faults. AllByRecursion IsOfFeatures faults.items) }
    ensures good { IfOk result (λ faults. faults.items ≡ [] → AreGood (classes table.now.entries.now)) }
    ensures places { (n : ℕ) → ArePlaced n table.now.entries.now places.now → IfOk result (λ faults. AllByRecursion (λ f. IsPlaced n f.at) faults.items) }
{
    let counts = counts_of(alloc, table)?;
    let mut faults = Vec::new(alloc);
    for index in 0..places.len() {
        let lineage = lineage_of(alloc, table.entries, ClassId(BASIC_CLASSES + index as u32))?;
        note_class(alloc, &mut faults, table, &counts, &lineage, places[index])?;
    }
    Ok(faults)
}

/// Notes the faults of a class whose name stands at a place. Returns `Err` only if memory runs out.
fn note_class(
    alloc: Global,
    faults: &mut Vec<ClassFault>,
    table: &TableNames<'_>,
    counts: &Counts,
    lineage: &Lineage,
    at: Place,
) -> Result<(), AllocError>
    requires table { AreTableNames table.now }
    requires lineage { IsLineage table.now.entries.now lineage.now }
    requires counts { AreCounts (length table.now.entries.now) (classes table.now.entries.now) counts.now }
    ensures { OnOk result (faults.new.items ≡ faults.old.items ++ class_faults (classes table.now.entries.now) lineage.now.class lineage.now.above.items at) }
{
    note_features(alloc, faults, table, lineage)?;
    note(faults, lacks_main(table, lineage.class), ClassKind::F8, at)?;
    note(
        faults,
        is_over_limit(table, counts, lineage),
        ClassKind::F9,
        at,
    )
}

/// Notes the faults of the features of a class. Returns `Err` only if memory runs out.
fn note_features(
    alloc: Global,
    faults: &mut Vec<ClassFault>,
    table: &TableNames<'_>,
    lineage: &Lineage,
) -> Result<(), AllocError>
    requires table { AreTableNames table.now }
    requires lineage { IsLineage table.now.entries.now lineage.now }
    ensures { OnOk result (faults.new.items ≡ faults.old.items ++ features_faults (classes table.now.entries.now) lineage.now.class lineage.now.above.items 0 (features_of (classes table.now.entries.now) lineage.now.class)) }
{
    let features = table.entries[lineage.class.0 as usize].features.as_slice();
    for index in 0..features.len() {
        note_feature(
            alloc,
            faults,
            table,
            lineage,
            index as u32,
            &features[index],
        )?;
    }
    Ok(())
}

/// Notes the faults of the feature at an index of a class. Returns `Err` only if memory runs out.
fn note_feature(
    alloc: Global,
    faults: &mut Vec<ClassFault>,
    table: &TableNames<'_>,
    lineage: &Lineage,
    index: u32,
    feature: &Feature,
) -> Result<(), AllocError>
    requires table { AreTableNames table.now }
    requires lineage { IsLineage table.now.entries.now lineage.now }
    requires few { HasFewFormals feature.now }
    ensures { OnOk result (faults.new.items ≡ faults.old.items ++ one_feature_faults (classes table.now.entries.now) lineage.now.class lineage.now.above.items index feature.now) }
{
    match feature {
        Feature::Method(method) => note_method(alloc, faults, table, lineage, index, method),
        Feature::Attribute(attribute) => note_attribute(faults, table, lineage, index, attribute),
    }
}

/// Notes the faults of the method at an index of a class. Returns `Err` only if memory runs out.
fn note_method(
    alloc: Global,
    faults: &mut Vec<ClassFault>,
    table: &TableNames<'_>,
    lineage: &Lineage,
    index: u32,
    method: &MethodDef,
) -> Result<(), AllocError>
    requires table { AreTableNames table.now }
    requires lineage { IsLineage table.now.entries.now lineage.now }
    requires few { length method.now.formals < 2 ^ 32 }
    ensures { OnOk result (faults.new.items ≡ faults.old.items ++ method_faults (classes table.now.entries.now) lineage.now.class lineage.now.above.items index method.now) }
{
    let own = &table.own[lineage.class.0 as usize];
    let first = is_first_at(&own.methods, method.name.as_slice(), index);
    note(faults, !first, ClassKind::F1, method.at)?;
    let otherwise = redefines_otherwise(table, lineage, method);
    note(faults, otherwise, ClassKind::F7, method.at)?;
    note_formals(alloc, faults, table, method.formals.as_slice())?;
    note_type(faults, table, &method.result)
}

/// Whether a method declares other formals or another result than the nearest one of its name above its class.
fn redefines_otherwise(table: &TableNames<'_>, lineage: &Lineage, method: &MethodDef) -> bool
    requires table { AreTableNames table.now }
    requires lineage { IsLineage table.now.entries.now lineage.now }
    ensures { result ≡ redefines_otherwise (classes table.now.entries.now) method.now (implementation (classes table.now.entries.now) lineage.now.above.items method.now.name) }
{
    match nearest_method(table, lineage.above.as_slice(), method.name.as_slice()) {
        Some(above) => declares_otherwise(table, method, above),
        None => false,
    }
}

/// Notes the faults of the attribute at an index of a class. Returns `Err` only if memory runs out.
fn note_attribute(
    faults: &mut Vec<ClassFault>,
    table: &TableNames<'_>,
    lineage: &Lineage,
    index: u32,
    attribute: &AttributeDef,
) -> Result<(), AllocError>
    requires table { AreTableNames table.now }
    requires lineage { IsLineage table.now.entries.now lineage.now }
    ensures { OnOk result (faults.new.items ≡ faults.old.items ++ attribute_faults (classes table.now.entries.now) lineage.now.class lineage.now.above.items index attribute.now) }
{
    let name = attribute.name.as_slice();
    note(
        faults,
        name == b"self".as_slice(),
        ClassKind::F3,
        attribute.at,
    )?;
    let doubled = is_doubled(table, lineage, name, index);
    note(faults, doubled, ClassKind::F2, attribute.at)?;
    note_type(faults, table, &attribute.declared)
}

/// Whether an earlier attribute of the class, or one of a class above it, has the name of the one at an index.
fn is_doubled(table: &TableNames<'_>, lineage: &Lineage, name: &[u8], index: u32) -> bool
    requires table { AreTableNames table.now }
    requires lineage { IsLineage table.now.entries.now lineage.now }
    ensures { result ≡ is_doubled (classes table.now.entries.now) lineage.now.class lineage.now.above.items index name.now }
{
    let own = &table.own[lineage.class.0 as usize];
    !is_first_at(&own.attributes, name, index)
        || have_attribute(table, lineage.above.as_slice(), name)
}

/// Whether a class is named Main and its first method main is missing or has formals.
fn lacks_main(table: &TableNames<'_>, class: ClassId) -> bool
    requires table { AreTableNames table.now }
    requires within { class.0 < length table.now.entries.now }
    ensures { result ≡ lacks_main (classes table.now.entries.now) class }
{
    let index = class.0 as usize;
    if table.entries[index].name.as_slice() != b"Main".as_slice() {
        return false;
    }
    match first_index(&table.own[index].methods, b"main") {
        Some(main) => !method_at(table, class, main).formals.as_slice().is_empty(),
        None => true,
    }
}
