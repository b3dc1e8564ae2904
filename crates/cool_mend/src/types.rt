//! `fault_types` and `fault_methods` give the names of the types and methods that an explanation of a type error shows.

ghost use Rattle.std.specs.Prelude.{◌≡◌, ◌∷◌, ◌≤◌, ◌<◌, [], IfOk, IfSome, OnOk, Some, drop, length, option_map, take};
ghost use Rattle.cool_syntax.specs.declared.TheConstants.{MOST_FILES, MOST_SOURCE_BYTES};
ghost use Rattle.cool_classes.specs.Chains.{name_of};
ghost use Rattle.cool_classes.specs.Features.{HasMethod};
ghost use Rattle.cool_classes.specs.LawfulTables.{method_names};
ghost use Rattle.cool_rules.specs.Rules.{method_of};
ghost use Rattle.cool_faults.specs.Files.{bytes_of, total};
ghost use Rattle.cool_mend.specs.Explanations.{HaveTable};
ghost use Rattle.cool_mend.specs.Told.{all_methods, found_or_all, method_text, method_texts, methods_told, own_names, type_text, type_texts, types_told, with_found, with_methods, with_text, word_at};

use crate::explanation::{Methods, Types};
use crate::range::file_of;
use cool_check::TypeFault;
use cool_classes::{ClassId, ClassTable, MethodRef, Ty, basic_class_methods};
use cool_faults::{ClassVerdict, Fault, class_phase};
use cool_guess::Lexeme;
use cool_names::method_meaning;
use cool_syntax::{Feature, Name};
use std::alloc::{AllocError, Global};

/// The most methods of a class that are told.
pub const MOST_METHODS: usize = 24;

/// The class table that files are, or none. Returns `Err` only if memory runs out.
pub(crate) fn class_table(
    alloc: Global,
    files: &[Vec<u8>],
) -> Result<Option<ClassTable>, AllocError>
    requires few { length files.now ≤ MOST_FILES }
    requires small { total (bytes_of files.now) ≤ MOST_SOURCE_BYTES }
    ensures { IfOk result (HaveTable (bytes_of files.now)) }
{
    match class_phase(alloc, files)? {
        ClassVerdict::Untyped(untyped) => Ok(Some(untyped.classes)),
        ClassVerdict::Refused(_) => Ok(None),
    }
}

/// The bytes of a range in the file of a fault, as far as they are there.
pub(crate) fn word_at<'a>(files: &'a [Vec<u8>], fault: &Fault, range: Lexeme) -> &'a [u8]
    ensures { result.now ≡ word_at (bytes_of files.now) fault.now range.start range.end }
{
    let file = file_of(files, fault.place().file);
    behind(front(file, range.end), range.start)
}

/// The bytes in front of `end`, as far as they are there.
fn front(bytes: &[u8], end: usize) -> &[u8]
    ensures { result.now ≡ take end bytes.now }
{
    if end < bytes.len() {
        return &bytes[..end];
    }
    bytes
}

/// The bytes from `start` on, as far as they are there.
fn behind(bytes: &[u8], start: usize) -> &[u8]
    ensures { result.now ≡ drop start bytes.now }
{
    if start < bytes.len() {
        return &bytes[start..];
    }
    b""
}

/// The types of a fault that do not fit, if it has both, and there is a class table. Returns `Err` only if memory runs out.
pub(crate) fn fault_types(
    alloc: Global,
    classes: &Option<ClassTable>,
    fault: &Fault,
) -> Result<Option<Types>, AllocError>
    ensures { IfOk result (λ told. option_map type_texts told ≡ types_told classes.now fault.now) }
{
    match classes {
        Some(table) => types_of(alloc, table, fault),
        None => Ok(None),
    }
}

/// Methods of the class in which a fault looked for one, if it did, and there is a class table: the method that this word names, or else all of them.
/// Returns `Err` only if memory runs out.
pub(crate) fn fault_methods(
    alloc: Global,
    classes: &Option<ClassTable>,
    fault: &Fault,
    word: &[u8],
) -> Result<Option<Methods>, AllocError>
    ensures { IfOk result (λ told. option_map method_texts told ≡ methods_told classes.now fault.now word.now) }
{
    match classes {
        Some(table) => methods_of(alloc, table, fault, word),
        None => Ok(None),
    }
}

/// The types of a fault that do not fit, if it has both. Returns `Err` only if memory runs out.
fn types_of(alloc: Global, classes: &ClassTable, fault: &Fault) -> Result<Option<Types>, AllocError>
    ensures { IfOk result (λ told. option_map type_texts told ≡ types_told (Some classes.now) fault.now) }
{
    match fault {
        Fault::Typing(
            TypeFault {
                found: Some(found),
                due: Some(due),
                ..
            },
        ) => Ok(Some(Types {
            found: type_text(alloc, classes, *found)?,
            due: type_text(alloc, classes, *due)?,
        })),
        _ => Ok(None),
    }
}

/// The text of a type. Returns `Err` only if memory runs out.
fn type_text(alloc: Global, classes: &ClassTable, ty: Ty) -> Result<Vec<u8>, AllocError>
    ensures { IfOk result (λ text. text.items ≡ type_text classes.now ty) }
{
    match ty {
        Ty::SelfType => Ok(Vec::from_slice(alloc, b"SELF_TYPE")?),
        Ty::Class(class) => class_text(alloc, classes, class),
    }
}

/// The name of a class; nothing for a number that no class of the table has. Returns `Err` only if memory runs out.
fn class_text(alloc: Global, classes: &ClassTable, class: ClassId) -> Result<Vec<u8>, AllocError>
    ensures { IfOk result (λ text. text.items ≡ name_of classes.now class) }
{
    if class.0 >= classes.count() {
        return Ok(Vec::new(alloc));
    }
    Ok(Vec::from_slice(alloc, classes.name(class).as_slice())?)
}

/// Methods of the class in which a fault looked for one, if it did: the method that this word names, or else all of them. Returns `Err` only if memory
/// runs out.
fn methods_of(
    alloc: Global,
    classes: &ClassTable,
    fault: &Fault,
    word: &[u8],
) -> Result<Option<Methods>, AllocError>
    ensures { IfOk result (λ told. option_map method_texts told ≡ methods_told (Some classes.now) fault.now word.now) }
{
    match fault {
        Fault::Typing(
            TypeFault {
                found: Some(Ty::Class(class)),
                due: None,
                ..
            },
        ) => Ok(Some(Methods {
            class: class_text(alloc, classes, *class)?,
            all: found_or_all(alloc, classes, *class, word)?,
        })),
        _ => Ok(None),
    }
}

/// The method of this name that a class has, or if it has none all its methods. Returns `Err` only if memory runs out.
fn found_or_all(
    alloc: Global,
    classes: &ClassTable,
    class: ClassId,
    name: &[u8],
) -> Result<Vec<Vec<u8>>, AllocError>
    ensures { IfOk result (λ all. bytes_of all.items ≡ found_or_all classes.now class name.now (method_of classes.now class name.now)) }
{
    let name = Name::new(alloc, name)?;
    let Some(method) = method_named(classes, class, &name) else {
        return all_methods(alloc, classes, class);
    };
    let mut all = Vec::new(alloc);
    all.push(method_text(alloc, classes, &name, method)?)?;
    Ok(all)
}

/// The method of this name that a class has, if there is one. A number that no class of the table has has none.
fn method_named(classes: &ClassTable, class: ClassId, name: &Name) -> Option<MethodRef>
    ensures is { result ≡ method_of classes.now class name.now }
    ensures has { IfSome result (HasMethod classes.now) }
{
    if class.0 >= classes.count() {
        return None;
    }
    classes.find_method(class, name)
}

/// A method by its name and its signature. Returns `Err` only if memory runs out.
fn method_text(
    alloc: Global,
    classes: &ClassTable,
    name: &Name,
    method: MethodRef,
) -> Result<Vec<u8>, AllocError>
    requires has { HasMethod classes.now method }
    ensures { IfOk result (λ text. text.items ≡ method_text classes.now name.now method) }
{
    let meaning = method_meaning(alloc, classes, method)?;
    let mut text = Vec::from_slice(alloc, name.as_slice())?;
    text.extend_from_slice(meaning.declared.as_slice())?;
    Ok(text)
}

/// The methods that a class has: its own, and then those of its ancestors. A number that no class of the table has has none. Returns `Err` only if memory
/// runs out.
fn all_methods(
    alloc: Global,
    classes: &ClassTable,
    class: ClassId,
) -> Result<Vec<Vec<u8>>, AllocError>
    ensures { IfOk result (λ all. bytes_of all.items ≡ all_methods classes.now class) }
{
    let mut all = Vec::new(alloc);
    if class.0 >= classes.count() {
        return Ok(all);
    }
    let mut next = Some(class);
    for _ in 0..classes.count() as usize + 1 {
        let Some(here) = next else {
            return Ok(all);
        };
        add_own(alloc, classes, class, here, &mut all)?;
        next = classes.parent(here);
    }
    Ok(all)
}

/// Adds the methods of a class whose names `here` defines, which is the class or one of its ancestors. Returns `Err` only if memory runs out.
fn add_own(
    alloc: Global,
    classes: &ClassTable,
    class: ClassId,
    here: ClassId,
    all: &mut Vec<Vec<u8>>,
) -> Result<(), AllocError>
    requires { here.0 < length classes.now }
    ensures { OnOk result (bytes_of all.new.items ≡ with_methods classes.now class (bytes_of all.old.items) (own_names classes.now here)) }
{
    for feature in classes.features(here) {
        add_feature(alloc, classes, class, feature, all)?;
    }
    for method in basic_class_methods(here.0) {
        add_method(alloc, classes, class, &Name::new(alloc, method.0)?, all)?;
    }
    Ok(())
}

/// Adds the method of a class that has the name of a feature, where that is a method, as `add_method` does. Returns `Err` only if memory runs out.
fn add_feature(
    alloc: Global,
    classes: &ClassTable,
    class: ClassId,
    feature: &Feature,
    all: &mut Vec<Vec<u8>>,
) -> Result<(), AllocError>
    ensures { OnOk result (bytes_of all.new.items ≡ with_methods classes.now class (bytes_of all.old.items) (method_names (feature.now ∷ []))) }
{
    match feature {
        Feature::Method(method) => add_method(alloc, classes, class, &method.name, all),
        Feature::Attribute(_) => Ok(()),
    }
}

/// Adds the method of this name that a class has, if it has one. Returns `Err` only if memory runs out.
fn add_method(
    alloc: Global,
    classes: &ClassTable,
    class: ClassId,
    name: &Name,
    all: &mut Vec<Vec<u8>>,
) -> Result<(), AllocError>
    ensures { OnOk result (bytes_of all.new.items ≡ with_found classes.now name.now (bytes_of all.old.items) (method_of classes.now class name.now)) }
{
    match method_named(classes, class, name) {
        Some(method) => add_text(method_text(alloc, classes, name, method)?, all),
        None => Ok(()),
    }
}

/// Adds a text, unless it is there, or they are so many. Returns `Err` only if memory runs out.
fn add_text(text: Vec<u8>, all: &mut Vec<Vec<u8>>) -> Result<(), AllocError>
    ensures { OnOk result (bytes_of all.new.items ≡ with_text (bytes_of all.old.items) text.items) }
{
    if all.len() < MOST_METHODS && !all.contains(&text) {
        all.push(text)?;
    }
    Ok(())
}
