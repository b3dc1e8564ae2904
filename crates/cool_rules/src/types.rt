//! Functions that find the type of a name, and the class that a type stands for, which is the current class for `SELF_TYPE`.

ghost use Rattle.std.specs.Prelude.{◌≡◌, ◌<◌, length, IfSome};
ghost use Rattle.cool_rules.specs.Conformance.{IsType, IsTypeNamed, class_of};

use cool_classes::{ClassId, ClassTable, Ty, is_self_type};
use cool_syntax::Name;

/// The type of this name: a class, or `SELF_TYPE`. None where it is neither.
pub fn type_named(t: &ClassTable, name: &Name) -> Option<Ty>
    ensures named { IsTypeNamed t.now name.now result }
    ensures is_type { IfSome result (IsType t.now) }
{
    if is_self_type(name.as_slice()) {
        return Some(Ty::SelfType);
    }
    t.id(name).map(Ty::Class)
}

/// The class that a type stands for in a class: itself, or for `SELF_TYPE` the class in which it stands.
pub fn class_of(c: ClassId, a: Ty) -> ClassId
    ensures { result ≡ class_of c a }
{
    match a {
        Ty::Class(class) => class,
        Ty::SelfType => c,
    }
}
