//! Functions that describe the definition that a name refers to: of `self`, a variable, a method, or no definition at all.

ghost use Rattle.std.specs.Prelude.{◌≡◌, ◌<◌, map, IfOk, Some, option_map, unwrap_or, slice_get};
ghost use Rattle.cool_syntax.specs.declared.file_tree.Feature.TheVariants as feature;
ghost use Rattle.cool_classes.specs.Features.{HasMethod, basic_formals, basic_result};
ghost use Rattle.cool_names.specs.declared.mark.Target.TheVariants as to;
ghost use Rattle.cool_names.specs.Meanings.{feature_meaning, method_meaning, self_meaning, signature, unknown, variable_meaning};
ghost use Rattle.cool_names.specs.Scopes.{variable_of};

use crate::declaration::Declaration;
use crate::mark::{Meaning, Target};
use cool_classes::{BasicMethod, ClassTable, MethodRef};
use cool_syntax::{Bytes, Feature, MethodDef, Place};
use std::alloc::{AllocError, Global};

/// The meaning that declares this type and is defined here. Returns `Err` only if memory runs out.
pub(crate) fn meaning(alloc: Global, declared: &[u8], target: Target) -> Result<Meaning, AllocError>
    ensures { IfOk result (λ meaning. meaning ≡ record { declared = declared.now; target = target }) }
{
    Ok(Meaning {
        declared: Bytes::new(alloc, declared)?,
        target,
    })
}

/// The meaning of a name that is bound to nothing. Returns `Err` only if memory runs out.
pub(crate) fn unknown(alloc: Global) -> Result<Meaning, AllocError>
    ensures { IfOk result (λ meaning. meaning ≡ unknown) }
{
    meaning(alloc, b"?", Target::Unknown)
}

/// The meaning of `self`. Returns `Err` only if memory runs out.
pub(crate) fn self_meaning(alloc: Global) -> Result<Meaning, AllocError>
    ensures { IfOk result (λ meaning. meaning ≡ self_meaning) }
{
    meaning(alloc, b"SELF_TYPE", Target::Given)
}

/// The meaning of a variable, if there is one. Returns `Err` only if memory runs out.
pub(crate) fn variable_meaning(
    alloc: Global,
    found: Option<Declaration<'_>>,
) -> Result<Meaning, AllocError>
    ensures { IfOk result (λ meaning. meaning ≡ variable_meaning (option_map variable_of found.entry)) }
{
    match found {
        Some(variable) => meaning(alloc, variable.declared.as_slice(), Target::At(variable.at)),
        None => unknown(alloc),
    }
}

/// The meaning of a method. Returns `Err` only if memory runs out.
pub fn method_meaning(
    alloc: Global,
    table: &ClassTable,
    method: MethodRef,
) -> Result<Meaning, AllocError>
    requires has { HasMethod table.now method }
    ensures { IfOk result (λ meaning. meaning ≡ method_meaning table.now method) }
{
    match method {
        MethodRef::Basic(basic) => meaning(alloc, basic_signature(basic), Target::Given),
        MethodRef::User { owner, index } => match &table.features(owner)[index as usize] {
            Feature::Method(found) => defined_method(alloc, found),
            Feature::Attribute(_) => unreachable!(),
        },
    }
}

/// The meaning of the method that this defines. Returns `Err` only if memory runs out.
pub(crate) fn defined_method(alloc: Global, method: &MethodDef) -> Result<Meaning, AllocError>
    ensures { IfOk result (λ meaning. meaning ≡ feature_meaning (feature.Method method.now)) }
{
    Ok(Meaning {
        declared: Bytes::from_vec(signature(alloc, method)?),
        target: Target::At(method.at),
    })
}

/// The signature of a method. Returns `Err` only if memory runs out.
fn signature(alloc: Global, method: &MethodDef) -> Result<Vec<u8>, AllocError>
    ensures { IfOk result (λ text. text.items ≡ signature (map (λ f. f.declared.name) method.now.formals) method.now.result.name) }
{
    let mut text = Vec::from_slice(alloc, b"(")?;
    let mut sign: &[u8] = b"";
    let formals = method.formals.as_slice();
    for formal in formals {
        text.extend_from_slice(sign)?;
        text.extend_from_slice(formal.declared.name.as_slice())?;
        sign = b",";
    }
    text.extend_from_slice(b"):")?;
    text.extend_from_slice(method.result.name.as_slice())?;
    Ok(text)
}

/// The signature of a method of a basic class (the Cool manual, section 8).
fn basic_signature(method: BasicMethod) -> &'static [u8]
    ensures { result.now ≡ signature (basic_formals method) (basic_result method) }
{
    match method {
        BasicMethod::Abort => b"():Object",
        BasicMethod::TypeName => b"():String",
        BasicMethod::Copy => b"():SELF_TYPE",
        BasicMethod::OutString => b"(String):SELF_TYPE",
        BasicMethod::OutInt => b"(Int):SELF_TYPE",
        BasicMethod::InString => b"():String",
        BasicMethod::InInt => b"():Int",
        BasicMethod::Length => b"():Int",
        BasicMethod::Concat => b"(String):String",
        BasicMethod::Substr => b"(Int,Int):String",
    }
}
