//! The function `check_feature`, which type-checks one method or attribute of a class, and the functions that build its scope.

ghost use Rattle.std.specs.Prelude.{◌≡◌, ◌<◌, ℕ, [], length, IfOk, IfErr, OnOk, Ok, Some};
ghost use Rattle.std.specs.List.{AllByRecursion, slice_get};
ghost use Rattle.cool_syntax.specs.declared.file_tree.Feature as syntax;
ghost use Rattle.cool_syntax.specs.declared.file_tree.Feature.TheVariants.{Method, Attribute};
ghost use Rattle.cool_syntax.specs.TreesWithinLimits.{IsFeatureWithin};
ghost use Rattle.cool_classes.specs.Chains.{features_of};
ghost use Rattle.cool_classes.specs.LawfulTables.{IsLawful};
ghost use Rattle.cool_classes.specs.Tables.{IsTable};
ghost use Rattle.cool_rules.specs.Scopes.{AreTypes};
ghost use Rattle.cool_check.specs.Checks.{IsFeatureAnswer};
ghost use Rattle.cool_check.specs.Faults.{IsPlacedError};
ghost use Rattle.cool_check.specs.FirstFaults.{IsFirst};
ghost use Rattle.cool_check.specs.Contexts.{attribute_bindings, formal_bindings};
ghost use Rattle.cool_check.specs.TypingSettings.{IsSound, IsSoundClass};
ghost use Rattle.cool_check.specs.TypingFaults.{feature_checked};

use crate::expression::type_of;
use crate::fault::{CheckError, TypeKind, TypingRule};
use crate::typing_setting::TypingSetting;
use cool_classes::{AttributeRef, ClassId, ClassTable, MethodRef, Ty};
use cool_pool::Column;
use cool_rules::{NodeTypes, Scope};
use cool_syntax::{AttributeDef, Feature, MethodDef};
use std::alloc::{AllocError, Global};

/// Checks one feature of a class, by its number among the features of the class (Cool manual, section 12).
///
/// `Ok` comes exactly if the feature is well typed. `Err(Fault(..))` comes exactly if it is not: it is the first fault in the order of checking, which goes
/// through the parts of an expression from left to right (`specs/FirstFaults.antt`). `Err(Memory)` comes only if memory runs out.
pub fn check_feature(
    alloc: Global,
    t: &ClassTable,
    c: ClassId,
    feature: u32,
) -> Result<(), CheckError>
    requires class { c.0 < length t.now }
    requires feature { feature < length (features_of t.now c) }
    ensures typed { (x : syntax.Feature) → slice_get (features_of t.now c) feature ≡ Some x → OnOk result (feature_checked t.now c x ≡ Ok tt) }
    ensures first { (x : syntax.Feature) → slice_get (features_of t.now c) feature ≡ Some x → IfErr result (IsFirst (feature_checked t.now c x)) }
    ensures places { (n : ℕ) → AllByRecursion (IsFeatureWithin n) (features_of t.now c) → IfErr result (IsPlacedError n) }
{
    // A table that is counted is known to be whole and lawful.
    prove!(c.0 < t.count());
    let features = t.features(c);
    let attributes = attribute_scope(alloc, t, c)?;
    check_among(
        alloc,
        t,
        c,
        &attributes,
        feature,
        &features[feature as usize],
    )?;
    Ok(())
}

/// The attributes of a class with those that it inherits, as a scope. Returns `Err` only if memory runs out.
pub(crate) fn attribute_scope(
    alloc: Global,
    t: &ClassTable,
    c: ClassId,
) -> Result<Scope<'_, Ty>, AllocError>
    requires table { IsTable t.now }
    requires class { c.0 < length t.now }
    ensures types { IfOk result (AreTypes t.now) }
    ensures attributes { IfOk result (λ scope. scope ≡ attribute_bindings t.now c) }
{
    let mut scope = Scope::new(alloc);
    for attribute in t.attributes(alloc, c)? {
        scope.enter(t.attribute_name(attribute), t.attribute_type(attribute))?;
    }
    Ok(scope)
}

/// Checks the feature at this position of a class with these attributes. Gives the types of the nodes of its expression.
pub(crate) fn check_among<'a>(
    alloc: Global,
    t: &'a ClassTable,
    c: ClassId,
    attributes: &Scope<'a, Ty>,
    index: u32,
    feature: &'a Feature,
) -> Result<NodeTypes, CheckError>
    requires lawful { IsLawful t.now }
    requires class { IsSoundClass t.now c attributes.now }
    requires attributes { attributes.now ≡ attribute_bindings t.now c }
    requires feature { slice_get (features_of t.now c) index ≡ Some feature.now }
    ensures { IsFeatureAnswer t.now c feature.now result }
{
    match feature {
        Feature::Method(method) => check_method(alloc, t, c, attributes, index, method),
        Feature::Attribute(attribute) => check_attribute(alloc, t, c, attributes, index, attribute),
    }
}

/// Checks a method: its body must conform to its result. Gives the types of the nodes of the body.
fn check_method<'a>(
    alloc: Global,
    t: &'a ClassTable,
    c: ClassId,
    attributes: &Scope<'a, Ty>,
    index: u32,
    method: &'a MethodDef,
) -> Result<NodeTypes, CheckError>
    requires lawful { IsLawful t.now }
    requires class { IsSoundClass t.now c attributes.now }
    requires attributes { attributes.now ≡ attribute_bindings t.now c }
    requires method { slice_get (features_of t.now c) index ≡ Some (Method method.now) }
    ensures { IsFeatureAnswer t.now c (Method method.now) result }
{
    let setting = TypingSetting {
        alloc,
        table: t,
        class: c,
        attributes,
        body: &method.body,
    };
    let called = MethodRef::User { owner: c, index };
    let mut locals = formal_scope(&setting, index, method)?;
    let mut types = Column::new(alloc, method.body.len())?;
    let found = type_of(&setting, &mut locals, &mut types, method.body.root())?;
    let declared = setting.result(called);
    if setting.conforms(found, declared) {
        Ok(NodeTypes::of(types.into_values()))
    } else {
        Err(CheckError::unfit(
            TypingRule::Method,
            TypeKind::E18,
            method.at,
            found,
            declared,
        ))
    }
}

/// The formals of the method at this position, as a scope. Returns `Err` only if memory runs out.
fn formal_scope<'a>(
    setting: &TypingSetting<'a, '_>,
    index: u32,
    method: &'a MethodDef,
) -> Result<Scope<'a, Ty>, AllocError>
    requires sound { IsSound setting.now }
    requires method { slice_get (features_of setting.now.table.now setting.now.class) index ≡ Some (Method method.now) }
    ensures types { IfOk result (AreTypes setting.now.table.now) }
    ensures formals { IfOk result (λ scope. scope ≡ formal_bindings setting.now.table.now method.now.formals) }
{
    let called = MethodRef::User {
        owner: setting.class,
        index,
    };
    let mut locals = Scope::new(setting.alloc);
    let formals = method.formals.as_slice();
    for place in 0..formals.len() {
        locals.enter(&formals[place].name, setting.formal(called, place as u32))?;
    }
    Ok(locals)
}

/// Checks an attribute: its initial value, where it has one, must conform to its type. Gives the types of the nodes of the initial value.
fn check_attribute<'a>(
    alloc: Global,
    t: &'a ClassTable,
    c: ClassId,
    attributes: &Scope<'a, Ty>,
    index: u32,
    attribute: &'a AttributeDef,
) -> Result<NodeTypes, CheckError>
    requires lawful { IsLawful t.now }
    requires class { IsSoundClass t.now c attributes.now }
    requires attributes { attributes.now ≡ attribute_bindings t.now c }
    requires attribute { slice_get (features_of t.now c) index ≡ Some (Attribute attribute.now) }
    ensures { IsFeatureAnswer t.now c (Attribute attribute.now) result }
{
    let Some(body) = &attribute.init else {
        return Ok(NodeTypes::of(Vec::new(alloc)));
    };
    let setting = TypingSetting {
        alloc,
        table: t,
        class: c,
        attributes,
        body,
    };
    let mut types = Column::new(alloc, body.len())?;
    let found = type_of(&setting, &mut Scope::new(alloc), &mut types, body.root())?;
    let declared = setting.attribute(AttributeRef { owner: c, index });
    if setting.conforms(found, declared) {
        Ok(NodeTypes::of(types.into_values()))
    } else {
        Err(CheckError::unfit(
            TypingRule::Attribute,
            TypeKind::E17,
            attribute.at,
            found,
            declared,
        ))
    }
}
