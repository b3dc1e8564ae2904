//! Maps from names to the classes of a class table, and, for each class, from names to the methods and attributes that it defines itself.

ghost use Rattle.std.specs.Prelude.{◌≡◌, ◌<◌, ◌^◌, ◌++◌, ◌∷◌, [], Some, List, length, slice_get, IfOk, OnOk, IfSome};
ghost use Rattle.std.specs.List.{AllByRecursion};
ghost use Rattle.cool_syntax.specs.declared.file_tree.Feature.{Feature as AnyFeature};
ghost use Rattle.cool_syntax.specs.declared.file_tree.Feature.TheVariants.{Method as IsMethod};
ghost use Rattle.cool_classes.specs.declared.class_id.ClassId as number;
ghost use Rattle.cool_classes.specs.declared.method.MethodRef.TheVariants.{User};
ghost use Rattle.cool_classes.specs.Features.{own_method, implementation, HasMethod};
ghost use Rattle.cool_classes.specs.Entries.{classes};
ghost use Rattle.cool_classes.specs.Resolved.{AreResolved};
ghost use Rattle.cool_classes.specs.OwnNames.{AreOwn, AreAllOwn, AreNamed, AreTableNames};
ghost use Rattle.cool_classes.specs.FeatureFaults.{is_class, have_attribute};
ghost use Rattle.cool_classes.specs.Chains.{Class, features_of};

use crate::basic_classes::BASIC_CLASSES;
use crate::basic_methods::basic_method;
use crate::class_id::ClassId;
use crate::entry::Entry;
use crate::first_names::{FirstNames, add_name, first_index};
use crate::method::MethodRef;
use cool_syntax::{Feature, MethodDef};
use std::alloc::{AllocError, Global};

/// The classes of entries by name, and the names of their features.
#[derive(Drop)]
pub(crate) struct TableNames<'a> {
    pub(crate) entries: &'a [Entry],
    pub(crate) classes: FirstNames,
    pub(crate) own: Vec<OwnNames>,
}

/// The names of the methods and attributes that a class has of its own, each with the index of its first feature.
#[derive(Drop)]
pub(crate) struct OwnNames {
    pub(crate) methods: FirstNames,
    pub(crate) attributes: FirstNames,
}

/// The names of classes and of their features. Returns `Err` only if memory runs out.
pub(crate) fn names_of<'a>(
    alloc: Global,
    entries: &'a [Entry],
    classes: FirstNames,
) -> Result<TableNames<'a>, AllocError>
    requires resolved { AreResolved entries.now }
    requires named { AreNamed classes.entries entries.now }
    ensures table { IfOk result (λ table. AreTableNames table) }
    ensures entries { IfOk result (λ table. table.entries.now ≡ entries.now) }
{
    Ok(TableNames {
        entries,
        classes,
        own: all_own_names(alloc, entries)?,
    })
}

/// The names of the features of each class. Returns `Err` only if memory runs out.
fn all_own_names(alloc: Global, entries: &[Entry]) -> Result<Vec<OwnNames>, AllocError>
    requires few_features { (c : number.ClassId) → c.0 < length (classes entries.now) → length (features_of (classes entries.now) c) < 2 ^ 32 }
    ensures { IfOk result (λ all. AreAllOwn (length entries.now) all.items (classes entries.now)) }
{
    let mut all = Vec::new(alloc);
    for index in 0..entries.len() {
        all.push(own_names(alloc, entries[index].features.as_slice())?)?;
    }
    Ok(all)
}

/// The names of the features of a class. Returns `Err` only if memory runs out.
fn own_names(alloc: Global, features: &[Feature]) -> Result<OwnNames, AllocError>
    requires few { length features.now < 2 ^ 32 }
    ensures { IfOk result (λ own. AreOwn own features.now) }
{
    let mut own = OwnNames {
        methods: FirstNames::new(alloc),
        attributes: FirstNames::new(alloc),
    };
    for index in 0..features.len() {
        add_feature(alloc, &mut own, &features[index], index as u32)?;
    }
    Ok(own)
}

/// Notes the name of the next feature. Returns `Err` only if memory runs out.
fn add_feature(
    alloc: Global,
    own: &mut OwnNames,
    feature: &Feature,
    index: u32,
) -> Result<(), AllocError>
    ensures { OnOk result ((fs : List AnyFeature) → index ≡ length fs → AreOwn own.old fs → AreOwn own.new (fs ++ feature.now ∷ [])) }
{
    match feature {
        Feature::Method(method) => add_name(alloc, &mut own.methods, method.name.as_slice(), index),
        Feature::Attribute(attribute) => {
            add_name(alloc, &mut own.attributes, attribute.name.as_slice(), index)
        }
    }
}

/// Whether a class has this name.
pub(crate) fn is_class(table: &TableNames<'_>, name: &[u8]) -> bool
    requires table { AreTableNames table.now }
    ensures { result ≡ is_class (classes table.now.entries.now) name.now }
{
    first_index(&table.classes, name).is_some()
}

/// The method of a name that these classes have, the first of them first.
pub(crate) fn nearest_method(
    table: &TableNames<'_>,
    above: &[ClassId],
    name: &[u8],
) -> Option<MethodRef>
    requires table { AreTableNames table.now }
    requires within { AllByRecursion (λ c. c.0 < length table.now.entries.now) above.now }
    ensures nearest { result ≡ implementation (classes table.now.entries.now) above.now name.now }
    ensures has { IfSome result (λ m. HasMethod (classes table.now.entries.now) m) }
{
    for index in 0..above.len() {
        let class = above[index];
        if let Some(method) = own_method(&table.own[class.0 as usize], class, name) {
            return Some(method);
        }
    }
    None
}

/// The method of a name that a class has of its own, the first where there are several.
pub(crate) fn own_method(own: &OwnNames, c: ClassId, name: &[u8]) -> Option<MethodRef>
    ensures { (p : List Class) → AreOwn own.now (features_of p c) → result ≡ own_method p c name.now }
{
    if c.0 < BASIC_CLASSES {
        return basic_method(c.0, name).map(MethodRef::Basic);
    }
    match first_index(&own.methods, name) {
        Some(index) => Some(MethodRef::User { owner: c, index }),
        None => None,
    }
}

/// Whether one of these classes has an attribute of this name.
pub(crate) fn have_attribute(table: &TableNames<'_>, above: &[ClassId], name: &[u8]) -> bool
    requires table { AreTableNames table.now }
    requires within { AllByRecursion (λ c. c.0 < length table.now.entries.now) above.now }
    ensures { result ≡ have_attribute (classes table.now.entries.now) above.now name.now }
{
    for index in 0..above.len() {
        let class = above[index];
        if first_index(&table.own[class.0 as usize].attributes, name).is_some() {
            return true;
        }
    }
    false
}

/// The method at an index of a class.
pub(crate) fn method_at<'a>(table: &TableNames<'a>, owner: ClassId, index: u32) -> &'a MethodDef
    requires within { owner.0 < length table.now.entries.now }
    requires has { HasMethod (classes table.now.entries.now) (User owner index) }
    ensures { slice_get (features_of (classes table.now.entries.now) owner) index ≡ Some (IsMethod result.now) }
{
    match &table.entries[owner.0 as usize].features.as_slice()[index as usize] {
        Feature::Method(method) => method,
        Feature::Attribute(_) => unreachable!(),
    }
}
