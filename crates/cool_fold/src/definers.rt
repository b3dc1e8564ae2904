//! A map from each method name to the classes that define a method of this name themselves.

ghost use Rattle.std.specs.Prelude.{◌≡◌, ◌<◌, ◌++◌, ◌∷◌, [], ℕ, List, length, is_some, if◌then◌else◌, bytes_eq, IfOk, OnOk};
ghost use Rattle.std.specs.List.{list_any};
ghost use Rattle.cool_classes.specs.Features.{basic_methods, is_method_named, own_method};
ghost use Rattle.cool_fold.specs.Definers.{definers_in, is_basic_named, Adds, AreDefiners};

use cool_classes::{ClassId, ClassTable, NamedMethod, basic_class_methods};
use cool_syntax::{Feature, Name};
use indexmap::IndexMap;
use std::alloc::{AllocError, Global};

/// Names of methods, each with the classes that define it.
type ByName<'a> = IndexMap<&'a [u8], Vec<ClassId>>;

/// The classes of a program that have a method of their own, for each name of a method, in the order of classes.
#[derive(Drop)]
pub struct Definers<'a> {
    by_name: ByName<'a>,
}

impl<'a> Definers<'a> {
    /// The classes of a table by the names of the methods that they have of their own. It goes over the features of all classes once. Returns `Err` only if
    /// memory runs out.
    pub fn new(alloc: Global, table: &'a ClassTable) -> Result<Definers<'a>, AllocError>
        ensures { IfOk result (AreDefiners table.now) }
    {
        let mut by_name = ByName::new(alloc);
        for number in 0..table.count() {
            add_class(alloc, &mut by_name, table, ClassId(number))?;
        }
        Ok(Definers { by_name })
    }

    /// The classes that have a method of this name of their own.
    pub(crate) fn of(&self, name: &Name) -> &[ClassId]
        ensures { result.now ≡ definers_in self.now.by_name.entries name.now }
    {
        match self.by_name.get(name.as_slice()) {
            Some(classes) => classes.as_slice(),
            None => &[],
        }
    }
}

/// Adds a class to those that define the methods that it has of its own. Returns `Err` only if memory runs out.
fn add_class<'a>(
    alloc: Global,
    by_name: &mut ByName<'a>,
    table: &'a ClassTable,
    class: ClassId,
) -> Result<(), AllocError>
    requires class { class.0 < length table.now }
    ensures { OnOk result (Adds class (λ name. is_some (own_method table.now class name)) by_name.old.entries by_name.new.entries) }
{
    if class.0 < 5 {
        add_basic(alloc, by_name, class)
    } else {
        add_features(alloc, by_name, table.features(class), class)
    }
}

/// Adds a basic class to those that define its methods. Returns `Err` only if memory runs out.
fn add_basic(alloc: Global, by_name: &mut ByName<'_>, class: ClassId) -> Result<(), AllocError>
    ensures { OnOk result (Adds class (λ name. list_any (is_basic_named name) (basic_methods class.0)) by_name.old.entries by_name.new.entries) }
{
    for NamedMethod(name, _) in basic_class_methods(class.0) {
        add(alloc, by_name, *name, class)?;
    }
    Ok(())
}

/// Adds a class to those that define the methods among these features. Returns `Err` only if memory runs out.
fn add_features<'a>(
    alloc: Global,
    by_name: &mut ByName<'a>,
    features: &'a [Feature],
    class: ClassId,
) -> Result<(), AllocError>
    ensures { OnOk result (Adds class (λ name. list_any (is_method_named name) features.now) by_name.old.entries by_name.new.entries) }
{
    for feature in features {
        if let Feature::Method(method) = feature {
            add(alloc, by_name, method.name.as_slice(), class)?;
        }
    }
    Ok(())
}

/// Adds a class to those that define a method of this name. Returns `Err` only if memory runs out.
fn add<'a>(
    alloc: Global,
    by_name: &mut ByName<'a>,
    name: &'a [u8],
    class: ClassId,
) -> Result<(), AllocError>
    ensures { OnOk result (Adds class (bytes_eq name.now) by_name.old.entries by_name.new.entries) }
{
    match by_name.get_mut(name) {
        Some(classes) => classes.push(class)?,
        None => {
            let mut classes = Vec::new(alloc);
            classes.push(class)?;
            by_name.insert(name, classes)?;
        }
    }
    Ok(())
}
