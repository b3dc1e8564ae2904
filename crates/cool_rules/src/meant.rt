//! Functions that return the type and the method that a name denotes in a complete class table. If a name denotes none, they return Object and a method of
//! Object, so they are used for names that are known to denote one, or if any result will do.

ghost use Rattle.std.specs.Prelude.{◌≡◌, ◌<◌, length};
ghost use Rattle.cool_classes.specs.Features.{HasMethod};
ghost use Rattle.cool_classes.specs.Tables.{IsTable};
ghost use Rattle.cool_rules.specs.Conformance.{IsType};
ghost use Rattle.cool_rules.specs.Meant.{method_in};
ghost use Rattle.cool_rules.specs.Rules.{type_meant};

use crate::types::type_named;
use cool_classes::{BasicMethod, ClassId, ClassTable, MethodRef, OBJECT, Ty};
use cool_syntax::Name;

/// The type that a name means; Object where it means none.
pub fn type_meant(t: &ClassTable, name: &Name) -> Ty
    requires { IsTable t.now }
    ensures is_type { IsType t.now result }
    ensures meant { result ≡ type_meant t.now name.now }
{
    match type_named(t, name) {
        Some(ty) => ty,
        None => Ty::Class(OBJECT),
    }
}

/// The method of a name that a class has; one of Object's where it has none.
pub fn method_meant(t: &ClassTable, class: ClassId, name: &Name) -> MethodRef
    requires table { IsTable t.now }
    requires class { class.0 < length t.now }
    ensures has { HasMethod t.now result }
    ensures method { result ≡ method_in t.now class name.now }
{
    match t.find_method(class, name) {
        Some(method) => method,
        None => MethodRef::Basic(BasicMethod::Abort),
    }
}
