//! Compares class tables, ignoring source locations, names of formals and bodies.

ghost use Rattle.std.specs.Prelude.{◌≡◌, ◌↔◌, ◌<◌, IsTrue, map, length};
ghost use Rattle.cool_classes.specs.Chains.{class_at};
ghost use Rattle.cool_session.specs.Bases.{view, views};
ghost use Rattle.cool_classes.specs.Declarations.{formal_types};
ghost use Rattle.cool_session.specs.Signatures.{feature_signature};

use cool_classes::{ClassId, ClassTable};
use cool_syntax::{Feature, Formal, same_name};

/// Whether the classes of two tables have the same names and parents, and features of the same signatures.
pub(crate) fn same_classes(a: &ClassTable, b: &ClassTable) -> bool
    ensures same { IsTrue result ↔ (views a.now ≡ views b.now) }
{
    if a.count() != b.count() {
        return false;
    }
    for number in 0..a.count() {
        if !same_class(a, b, ClassId(number)) {
            return false;
        }
    }
    true
}

/// Whether the classes of this number are the same.
fn same_class(a: &ClassTable, b: &ClassTable, c: ClassId) -> bool
    requires first { c.0 < length a.now }
    requires second { c.0 < length b.now }
    ensures same { IsTrue result ↔ (view (class_at a.now c) ≡ view (class_at b.now c)) }
{
    same_name(a.name(c), b.name(c))
        && same_parent(a.parent(c), b.parent(c))
        && same_features(a.features(c), b.features(c))
}

fn same_parent(a: Option<ClassId>, b: Option<ClassId>) -> bool
    ensures same { IsTrue result ↔ (a ≡ b) }
{
    match (a, b) {
        (None, None) => true,
        (Some(c), Some(d)) => c.0 == d.0,
        _ => false,
    }
}

fn same_features(a: &[Feature], b: &[Feature]) -> bool
    ensures same { IsTrue result ↔ (map feature_signature a.now ≡ map feature_signature b.now) }
{
    if a.len() != b.len() {
        return false;
    }
    for i in 0..a.len() {
        if !same_feature(&a[i], &b[i]) {
            return false;
        }
    }
    true
}

/// Whether two features have the same signature.
pub(crate) fn same_feature(a: &Feature, b: &Feature) -> bool
    ensures same { IsTrue result ↔ (feature_signature a.now ≡ feature_signature b.now) }
{
    match (a, b) {
        (Feature::Method(m), Feature::Method(n)) => {
            same_name(&m.name, &n.name)
                && same_formals(m.formals.as_slice(), n.formals.as_slice())
                && same_name(&m.result.name, &n.result.name)
        }
        (Feature::Attribute(v), Feature::Attribute(w)) => {
            same_name(&v.name, &w.name) && same_name(&v.declared.name, &w.declared.name)
        }
        _ => false,
    }
}

fn same_formals(a: &[Formal], b: &[Formal]) -> bool
    ensures same { IsTrue result ↔ (formal_types a.now ≡ formal_types b.now) }
{
    if a.len() != b.len() {
        return false;
    }
    for i in 0..a.len() {
        if !same_name(&a[i].declared.name, &b[i].declared.name) {
            return false;
        }
    }
    true
}
