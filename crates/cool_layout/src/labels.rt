//! Functions that make the assembly labels of classes and methods, according to the conventions of the run-time system.

ghost use Rattle.std.specs.Prelude.{◌≡◌, ◌++◌, ◌<◌, length, codes, decimal, IfOk};
ghost use Rattle.cool_classes.specs.Features.{HasMethod};
ghost use Rattle.cool_layout.specs.Labels as label;

use cool_classes::{BasicMethod, ClassId, ClassTable, MethodRef};
use cool_syntax::Feature;
use std::alloc::{AllocError, Global};

/// Bytes with others after them.
fn joined(alloc: Global, front: &[u8], back: &[u8]) -> Result<Vec<u8>, AllocError>
    ensures { IfOk result (λ name. name.items ≡ front.now ++ back.now) }
{
    let mut name = Vec::from_slice(alloc, front)?;
    name.extend_from_slice(back)?;
    Ok(name)
}

/// The label of the prototype of a class.
pub fn prototype_label(alloc: Global, t: &ClassTable, c: ClassId) -> Result<Vec<u8>, AllocError>
    requires within { c.0 < length t.now }
    ensures { IfOk result (λ name. name.items ≡ label.prototype t.now c) }
{
    joined(alloc, t.name(c).as_slice(), b"_protObj")
}

/// The label of the code that gives the attributes of a class their first values.
pub fn initializer_label(alloc: Global, t: &ClassTable, c: ClassId) -> Result<Vec<u8>, AllocError>
    requires within { c.0 < length t.now }
    ensures { IfOk result (λ name. name.items ≡ label.initializer t.now c) }
{
    joined(alloc, t.name(c).as_slice(), b"_init")
}

/// The label of the dispatch table of a class.
pub fn table_label(alloc: Global, t: &ClassTable, c: ClassId) -> Result<Vec<u8>, AllocError>
    requires within { c.0 < length t.now }
    ensures { IfOk result (λ name. name.items ≡ label.dispatch_table t.now c) }
{
    joined(alloc, t.name(c).as_slice(), b"_dispTab")
}

/// The label of the String with the name of a class.
pub fn name_label(alloc: Global, c: ClassId) -> Result<Vec<u8>, AllocError>
    ensures { IfOk result (λ name. name.items ≡ label.class_name c) }
{
    let number = c.0;
    Ok(format!(in alloc; "__name{number}")?.into_bytes())
}

/// The label of the Int with the length of the name of a class.
pub(crate) fn name_length_label(alloc: Global, c: ClassId) -> Result<Vec<u8>, AllocError>
    ensures { IfOk result (λ name. name.items ≡ label.class_name_length c) }
{
    let number = c.0;
    Ok(format!(in alloc; "__name_length{number}")?.into_bytes())
}

/// The label of a method of a basic class.
fn basic_label(method: BasicMethod) -> &'static [u8]
    ensures { result.now ≡ label.basic_label method }
{
    match method {
        BasicMethod::Abort => b"Object.abort",
        BasicMethod::TypeName => b"Object.type_name",
        BasicMethod::Copy => b"Object.copy",
        BasicMethod::OutString => b"IO.out_string",
        BasicMethod::OutInt => b"IO.out_int",
        BasicMethod::InString => b"IO.in_string",
        BasicMethod::InInt => b"IO.in_int",
        BasicMethod::Length => b"String.length",
        BasicMethod::Concat => b"String.concat",
        BasicMethod::Substr => b"String.substr",
    }
}

/// The label of a method: its class and its name.
pub fn method_label(alloc: Global, t: &ClassTable, method: MethodRef) -> Result<Vec<u8>, AllocError>
    requires has { HasMethod t.now method }
    ensures { IfOk result (λ name. name.items ≡ label.method_label t.now method) }
{
    match method {
        MethodRef::Basic(basic) => Vec::from_slice(alloc, basic_label(basic)),
        MethodRef::User { owner, index } => {
            let class = joined(alloc, t.name(owner).as_slice(), b".")?;
            match &t.features(owner)[index as usize] {
                Feature::Method(definition) => joined(
                    alloc,
                    class.as_slice(),
                    definition.name.as_slice(),
                ),
                Feature::Attribute(_) => unreachable!(),
            }
        }
    }
}
