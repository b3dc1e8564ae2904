//! Functions that return the declared types of features: of the formal parameters and the result of a method, and of an attribute.

ghost use Rattle.std.specs.Prelude.{◌≡◌, ◌<◌, List, [], length, get_or};
ghost use Rattle.cool_classes.specs.declared.entry.Entry as entry;
ghost use Rattle.cool_classes.specs.Features.{HasAttribute, HasMethod, Denotes, attribute_type, formals_of, result_of};
ghost use Rattle.cool_classes.specs.Tables.{IsTypeName};
ghost use Rattle.cool_classes.specs.Entries.{classes, AreWhole};
ghost use Rattle.cool_classes.specs.OwnNames.{AreNamed};

use crate::basic_methods::{basic_formal, basic_formal_count, basic_result};
use crate::class_id::Ty;
use crate::entry::Entry;
use crate::first_names::FirstNames;
use crate::lookup::class_named;
use crate::method::{AttributeRef, MethodRef};
use crate::self_type::is_self_type;
use cool_syntax::Feature;

/// The number of formals of a method.
pub(crate) fn formal_count(entries: &[Entry], method: MethodRef) -> u32
    requires whole { AreWhole entries.now }
    requires has { HasMethod (classes entries.now) method }
    ensures { result ≡ length (formals_of (classes entries.now) method) }
{
    match method {
        MethodRef::Basic(basic) => basic_formal_count(basic),
        MethodRef::User { owner, index } => {
            match &entries[owner.0 as usize].features.as_slice()[index as usize] {
                Feature::Method(found) => found.formals.as_slice().len() as u32,
                Feature::Attribute(_) => unreachable!(),
            }
        }
    }
}

/// The type of a formal of a method.
pub(crate) fn formal(entries: &[Entry], names: &FirstNames, method: MethodRef, i: u32) -> Ty
    requires whole { AreWhole entries.now }
    requires names { AreNamed names.now.entries entries.now }
    requires has { HasMethod (classes entries.now) method }
    requires within { i < length (formals_of (classes entries.now) method) }
    ensures { Denotes (classes entries.now) (get_or (formals_of (classes entries.now) method) i []) result }
{
    match method {
        MethodRef::Basic(basic) => Ty::Class(basic_formal(basic, i)),
        MethodRef::User { owner, index } => {
            match &entries[owner.0 as usize].features.as_slice()[index as usize] {
                Feature::Method(found) => {
                    let declared = &found.formals.as_slice()[i as usize].declared;
                    type_named(names, declared.name.as_slice())
                }
                Feature::Attribute(_) => unreachable!(),
            }
        }
    }
}

/// The type of the result of a method.
pub(crate) fn result(entries: &[Entry], names: &FirstNames, method: MethodRef) -> Ty
    requires whole { AreWhole entries.now }
    requires names { AreNamed names.now.entries entries.now }
    requires has { HasMethod (classes entries.now) method }
    ensures { Denotes (classes entries.now) (result_of (classes entries.now) method) result }
{
    match method {
        MethodRef::Basic(basic) => basic_result(basic),
        MethodRef::User { owner, index } => {
            match &entries[owner.0 as usize].features.as_slice()[index as usize] {
                Feature::Method(found) => type_named(names, found.result.name.as_slice()),
                Feature::Attribute(_) => unreachable!(),
            }
        }
    }
}

/// The declared type of an attribute.
pub(crate) fn attribute_type(entries: &[Entry], names: &FirstNames, attribute: AttributeRef) -> Ty
    requires whole { AreWhole entries.now }
    requires names { AreNamed names.now.entries entries.now }
    requires has { HasAttribute (classes entries.now) attribute }
    ensures { Denotes (classes entries.now) (attribute_type (classes entries.now) attribute) result }
{
    let features = entries[attribute.owner.0 as usize].features.as_slice();
    match &features[attribute.index as usize] {
        Feature::Attribute(found) => type_named(names, found.declared.name.as_slice()),
        Feature::Method(_) => unreachable!(),
    }
}

/// The type of this name.
fn type_named(names: &FirstNames, name: &[u8]) -> Ty
    requires known { (es : List entry.Entry) × AreNamed names.now.entries es × IsTypeName (classes es) name.now }
    ensures { (es : List entry.Entry) → AreNamed names.now.entries es → Denotes (classes es) name.now result }
{
    if is_self_type(name) {
        return Ty::SelfType;
    }
    match class_named(names, name) {
        Some(class) => Ty::Class(class),
        None => unreachable!(),
    }
}
