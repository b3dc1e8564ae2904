//! Compares the declarations of features, ignoring source locations, bodies and initial values.

ghost use Rattle.std.specs.Prelude.{◌≡◌, ◌↔◌, IsTrue};
ghost use Rattle.cool_classes.specs.Declarations.{DeclareSame, formal_names};

use crate::same_classes::same_feature;
use cool_syntax::{Feature, Formal, same_name};

/// Whether two features declare the same: methods a name, formals of the same names and types, and a result, attributes a name and a type.
pub(crate) fn declare_same(a: &Feature, b: &Feature) -> bool
    ensures same { IsTrue result ↔ DeclareSame a.now b.now }
{
    match (a, b) {
        (Feature::Method(m), Feature::Method(n)) => {
            same_feature(a, b) && same_names(m.formals.as_slice(), n.formals.as_slice())
        }
        _ => same_feature(a, b),
    }
}

/// Whether formals have the same names.
fn same_names(a: &[Formal], b: &[Formal]) -> bool
    ensures same { IsTrue result ↔ (formal_names a.now ≡ formal_names b.now) }
{
    if a.len() != b.len() {
        return false;
    }
    for i in 0..a.len() {
        if !same_name(&a[i].name, &b[i].name) {
            return false;
        }
    }
    true
}
