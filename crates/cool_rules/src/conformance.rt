//! Functions that decide whether a type conforms to another (is its subtype) in a class, and that compute the join of two types: the least type to which both
//! conform (the Cool manual, section 4).

ghost use Rattle.std.specs.Prelude.{◌≡◌, ◌<◌, ◌↔◌, IsTrue, length};
ghost use Rattle.cool_rules.specs.Conformance.{IsType, Conforms, IsJoinOfTypes};

use cool_classes::{ClassId, ClassTable, Ty};

/// Whether a type conforms to another one in a class.
pub fn conforms(t: &ClassTable, c: ClassId, a: Ty, b: Ty) -> bool
    requires class { c.0 < length t.now }
    requires is_type { IsType t.now a }
    ensures { IsTrue result ↔ Conforms t.now c a b }
{
    match (a, b) {
        (Ty::SelfType, Ty::SelfType) => true,
        (Ty::SelfType, Ty::Class(above)) => t.is_below(c, above),
        (Ty::Class(_), Ty::SelfType) => false,
        (Ty::Class(class), Ty::Class(above)) => t.is_below(class, above),
    }
}

/// The least type to which both conform in a class.
pub fn join_types(t: &ClassTable, c: ClassId, a: Ty, b: Ty) -> Ty
    requires class { c.0 < length t.now }
    requires left { IsType t.now a }
    requires right { IsType t.now b }
    ensures is_type { IsType t.now result }
    ensures join { IsJoinOfTypes t.now c a b result }
{
    match (a, b) {
        (Ty::SelfType, Ty::SelfType) => Ty::SelfType,
        (Ty::SelfType, Ty::Class(right)) => Ty::Class(t.join(c, right)),
        (Ty::Class(left), Ty::SelfType) => Ty::Class(t.join(left, c)),
        (Ty::Class(left), Ty::Class(right)) => Ty::Class(t.join(left, right)),
    }
}
