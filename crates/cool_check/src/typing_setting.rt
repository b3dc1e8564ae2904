//! The type `TypingSetting`, the constant context in which one feature is type-checked, and functions that apply typing rules in this context.

ghost use Rattle.std.specs.Prelude.{◌≡◌, ◌<◌, [], length, get_or, IfSome};
ghost use Rattle.cool_classes.specs.Features.{HasAttribute, HasMethod, attribute_type, formals_of, result_of};
ghost use Rattle.cool_rules.specs.Conformance.{IsType};
ghost use Rattle.cool_rules.specs.Rules.{do_conform, join_in, type_of_name, type_meant, method_of};
ghost use Rattle.cool_check.specs.TypingSettings.{IsSound};

use cool_classes::{AttributeRef, ClassId, ClassTable, MethodRef, Ty};
use cool_rules::{Scope, conforms, join_types, type_named};
use cool_syntax::{Body, Name};
use std::alloc::Global;

/// The class table, the class whose feature it is with its attributes, and the expression.
#[derive(Clone, Copy)]
pub(crate) struct TypingSetting<'a, 's> {
    pub(crate) alloc: Global,
    pub(crate) table: &'a ClassTable,
    pub(crate) class: ClassId,
    pub(crate) attributes: &'s Scope<'a, Ty>,
    pub(crate) body: &'a Body,
}

impl<'a, 's> TypingSetting<'a, 's> {
    /// Whether a type conforms to another one.
    pub(crate) fn conforms(&self, a: Ty, b: Ty) -> bool
        requires sound { IsSound self.now }
        requires is_type { IsType self.now.table.now a }
        ensures { result ≡ do_conform self.now.table.now self.now.class a b }
    {
        conforms(self.table, self.class, a, b)
    }

    /// The join of two types.
    pub(crate) fn join(&self, a: Ty, b: Ty) -> Ty
        requires sound { IsSound self.now }
        requires left { IsType self.now.table.now a }
        requires right { IsType self.now.table.now b }
        ensures is_type { IsType self.now.table.now result }
        ensures join { result ≡ join_in self.now.table.now self.now.class a b }
    {
        join_types(self.table, self.class, a, b)
    }

    /// The type of a name: a class, or `SELF_TYPE`. None where it is neither.
    pub(crate) fn type_named(&self, name: &Name) -> Option<Ty>
        requires sound { IsSound self.now }
        ensures is_type { IfSome result (IsType self.now.table.now) }
        ensures named { result ≡ type_of_name self.now.table.now name.now }
    {
        type_named(self.table, name)
    }

    /// The method of a name that a class has, the nearest on its chain.
    pub(crate) fn method(&self, class: ClassId, name: &Name) -> Option<MethodRef>
        requires sound { IsSound self.now }
        requires class { class.0 < length self.now.table.now }
        ensures has { IfSome result (λ m. HasMethod self.now.table.now m) }
        ensures method { result ≡ method_of self.now.table.now class name.now }
    {
        self.table.find_method(class, name)
    }

    /// The type of a formal of a method, counted from 0.
    pub(crate) fn formal(&self, method: MethodRef, index: u32) -> Ty
        requires sound { IsSound self.now }
        requires has { HasMethod self.now.table.now method }
        requires within { index < length (formals_of self.now.table.now method) }
        ensures is_type { IsType self.now.table.now result }
        ensures formal { result ≡ type_meant self.now.table.now (get_or (formals_of self.now.table.now method) index []) }
    {
        self.table.formal(method, index)
    }

    /// The type of the result of a method.
    pub(crate) fn result(&self, method: MethodRef) -> Ty
        requires sound { IsSound self.now }
        requires has { HasMethod self.now.table.now method }
        ensures is_type { IsType self.now.table.now result }
        ensures result { result ≡ type_meant self.now.table.now (result_of self.now.table.now method) }
    {
        self.table.result(method)
    }

    /// The declared type of an attribute.
    pub(crate) fn attribute(&self, attribute: AttributeRef) -> Ty
        requires sound { IsSound self.now }
        requires has { HasAttribute self.now.table.now attribute }
        ensures is_type { IsType self.now.table.now result }
        ensures attribute { result ≡ type_meant self.now.table.now (attribute_type self.now.table.now attribute) }
    {
        self.table.attribute_type(attribute)
    }
}
