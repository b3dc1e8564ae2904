//! Functions that list the attributes of a class with those that it inherits.

ghost use Rattle.std.specs.Prelude.{◌≡◌, ◌<◌, ◌^◌, ◌++◌, List, length, IfOk, OnOk, Some};
ghost use Rattle.cool_classes.specs.declared.class_id.ClassId as number;
ghost use Rattle.cool_classes.specs.Chains.{IsChain};
ghost use Rattle.std.specs.List.{AllByRecursion};
ghost use Rattle.cool_classes.specs.Features.{own_attributes, attributes_of, attribute_name, HasAttribute};
ghost use Rattle.cool_classes.specs.Entries.{classes, AreWhole};

use crate::class_id::ClassId;
use crate::climbing::chain;
use crate::entry::Entry;
use crate::method::AttributeRef;
use cool_syntax::{Feature, Name};
use std::alloc::{AllocError, Global};

/// The attributes of a class, from the greatest ancestor down, in textual order. Returns `Err` only if memory runs out.
pub(crate) fn attributes(
    alloc: Global,
    entries: &[Entry],
    c: ClassId,
) -> Result<Vec<AttributeRef>, AllocError>
    requires within { c.0 < length entries.now }
    requires whole { AreWhole entries.now }
    ensures attributes { IfOk result (λ all. (ds : List number.ClassId) → IsChain (classes entries.now) (Some c) ds → all.items ≡ attributes_of (classes entries.now) ds) }
    ensures has { IfOk result (λ all. AllByRecursion (HasAttribute (classes entries.now)) all.items) }
{
    let ids = chain(alloc, entries, c)?;
    let mut attributes = Vec::new(alloc);
    for index in (0..ids.len()).rev() {
        let id = ids[index];
        add_own(
            &mut attributes,
            id,
            entries[id.0 as usize].features.as_slice(),
        )?;
    }
    Ok(attributes)
}

/// Adds the attributes that a class has of its own, in textual order. Returns `Err` only if memory runs out.
fn add_own(
    attributes: &mut Vec<AttributeRef>,
    owner: ClassId,
    features: &[Feature],
) -> Result<(), AllocError>
    requires few { length features.now < 2 ^ 32 }
    ensures { OnOk result (attributes.new.items ≡ attributes.old.items ++ own_attributes owner 0 features.now) }
{
    for index in 0..features.len() {
        if let Feature::Attribute(_) = &features[index] {
            attributes.push(AttributeRef {
                owner,
                index: index as u32,
            })?;
        }
    }
    Ok(())
}

/// The name of an attribute.
pub(crate) fn name(entries: &[Entry], attribute: AttributeRef) -> &Name
    requires whole { AreWhole entries.now }
    requires has { HasAttribute (classes entries.now) attribute }
    ensures { result.now ≡ attribute_name (classes entries.now) attribute }
{
    let features = entries[attribute.owner.0 as usize].features.as_slice();
    match &features[attribute.index as usize] {
        Feature::Attribute(found) => &found.name,
        Feature::Method(_) => unreachable!(),
    }
}
