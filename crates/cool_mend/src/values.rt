//! `fault_values` finds the places of the expressions that give a value of the wrong type.

ghost use Rattle.std.specs.Prelude.{◌≡◌, ◌<◌, ◌++◌, IfOk, OnOk, length, option_map};
ghost use Rattle.std.specs.List.{flat_map};
ghost use Rattle.cool_syntax.specs.Tree.{tree_size};
ghost use Rattle.cool_syntax.specs.NodeLists.{tree_at};
ghost use Rattle.cool_mend.specs.Values.{body_of, is_at, place_of_feature, values_in, values_of_classes, values_of_feature, values_of_kind, values_of_let, values_of_lets, values_told};

use cool_check::TypeKind;
use cool_classes::{ClassId, ClassTable};
use cool_faults::Fault;
use cool_notices::value_places;
use cool_syntax::{Body, Feature, Node, NodeId, Place};
use std::alloc::{AllocError, Global};

/// The most values of a fault that are told.
pub const MOST_VALUES: usize = 8;

/// The first places of the expressions that give the value of a fault, if its value has the wrong type, and there is a class table. Returns `Err` only if
/// memory runs out.
pub(crate) fn fault_values(
    alloc: Global,
    classes: &Option<ClassTable>,
    fault: &Fault,
) -> Result<Vec<Place>, AllocError>
    ensures { IfOk result (λ all. all.items ≡ values_told classes.now fault.now) }
{
    match classes {
        Some(table) => values_in(alloc, table, fault),
        None => Ok(Vec::new(alloc)),
    }
}

/// The first value places of a fault in this class table. Returns `Err` only if memory runs out.
fn values_in(alloc: Global, classes: &ClassTable, fault: &Fault) -> Result<Vec<Place>, AllocError>
    ensures { IfOk result (λ all. all.items ≡ values_in classes.now fault.now) }
{
    match fault {
        Fault::Typing(fault) => {
            let mut all = values_of_kind(alloc, fault.kind, fault.at, classes)?;
            all.truncate(MOST_VALUES);
            Ok(all)
        }
        _ => Ok(Vec::new(alloc)),
    }
}

/// The value places of a fault of typing of this kind at this place. Returns `Err` only if memory runs out.
fn values_of_kind(
    alloc: Global,
    kind: TypeKind,
    at: Place,
    classes: &ClassTable,
) -> Result<Vec<Place>, AllocError>
    ensures { IfOk result (λ all. all.items ≡ values_of_kind kind at classes.now) }
{
    match kind {
        TypeKind::E17 => values_of_classes(alloc, true, at, classes),
        TypeKind::E18 => values_of_classes(alloc, false, at, classes),
        _ => Ok(Vec::new(alloc)),
    }
}

/// The value places of the features at this place; of the `let` expressions at it, too, if these are meant. Returns `Err` only if memory runs out.
fn values_of_classes(
    alloc: Global,
    lets: bool,
    at: Place,
    classes: &ClassTable,
) -> Result<Vec<Place>, AllocError>
    ensures { IfOk result (λ all. all.items ≡ values_of_classes lets at classes.now) }
{
    let mut all = Vec::new(alloc);
    for number in 0..classes.count() {
        add_of_class(alloc, lets, at, classes.features(ClassId(number)), &mut all)?;
    }
    Ok(all)
}

/// Adds the value places in the features of a class. Returns `Err` only if memory runs out.
fn add_of_class(
    alloc: Global,
    lets: bool,
    at: Place,
    features: &[Feature],
    all: &mut Vec<Place>,
) -> Result<(), AllocError>
    ensures { OnOk result (all.new.items ≡ all.old.items ++ flat_map (values_of_feature lets at) features.now) }
{
    for feature in features {
        all.extend_from_slice(&values_of_feature(alloc, lets, at, feature)?)?;
    }
    Ok(())
}

/// The value places of a feature at this place, or of its `let` expressions at it, if these are meant. Returns `Err` only if memory runs out.
fn values_of_feature(
    alloc: Global,
    lets: bool,
    at: Place,
    feature: &Feature,
) -> Result<Vec<Place>, AllocError>
    ensures { IfOk result (λ all. all.items ≡ values_of_feature lets at feature.now) }
{
    let Some(body) = body_of(feature) else {
        return Ok(Vec::new(alloc));
    };
    if is_at(place_of_feature(feature), at) {
        return value_places(alloc, body, body.root());
    }
    if lets {
        values_of_lets(alloc, at, body)
    } else {
        Ok(Vec::new(alloc))
    }
}

/// The value places of the `let` expressions at this place. Returns `Err` only if memory runs out.
fn values_of_lets(alloc: Global, at: Place, body: &Body) -> Result<Vec<Place>, AllocError>
    ensures { IfOk result (λ all. all.items ≡ values_of_lets at body.now) }
{
    let mut all = Vec::new(alloc);
    for number in 0..body.len() {
        all.extend_from_slice(&values_of_let(alloc, at, body, NodeId(number))?)?;
    }
    Ok(all)
}

/// The value places of the initial value of a `let` at this place; none of another expression. Returns `Err` only if memory runs out.
fn values_of_let(
    alloc: Global,
    at: Place,
    body: &Body,
    id: NodeId,
) -> Result<Vec<Place>, AllocError>
    requires below { id.0 < tree_size body.now }
    ensures { IfOk result (λ all. all.items ≡ values_of_let at (tree_at body.now id)) }
{
    match body.node(id) {
        Node::Let {
            at: place,
            init: Some(init),
            ..
        } => {
            if is_at(*place, at) {
                value_places(alloc, body, *init)
            } else {
                Ok(Vec::new(alloc))
            }
        }
        _ => Ok(Vec::new(alloc)),
    }
}

/// Whether two places are the same.
fn is_at(place: Place, other: Place) -> bool
    ensures { result ≡ is_at place other }
{
    place.file == other.file && place.byte == other.byte
}

/// The place of a feature.
fn place_of_feature(feature: &Feature) -> Place
    ensures { result ≡ place_of_feature feature.now }
{
    match feature {
        Feature::Method(method) => method.at,
        Feature::Attribute(attribute) => attribute.at,
    }
}

/// The expression of a feature, if it has one.
pub(crate) fn body_of(feature: &Feature) -> Option<&Body>
    ensures { option_map (λ body. body.now) result ≡ body_of feature.now }
{
    match feature {
        Feature::Method(method) => Some(&method.body),
        Feature::Attribute(attribute) => match &attribute.init {
            Some(body) => Some(body),
            None => None,
        },
    }
}
