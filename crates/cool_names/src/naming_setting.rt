//! The type `NamingSetting`, the context in which the names of an expression are resolved, and functions that find variables and methods there.

ghost use Rattle.std.specs.Prelude.{◌≡◌, ◌<◌, [], ◌∷◌, ◌++◌, length, IfOk, IfSome, OnOk, option_map, bytes_eq, codes};
ghost use Rattle.std.specs.Option.{option_or};
ghost use Rattle.cool_classes.specs.Features.{HasMethod, result_of};
ghost use Rattle.cool_rules.specs.Conformance.{IsType, class_of};
ghost use Rattle.cool_rules.specs.Rules.{method_of, type_meant, type_of_name};
ghost use Rattle.cool_rules.specs.Scopes.{found};
ghost use Rattle.cool_rules.specs.Typing.{result_on};
ghost use Rattle.cool_names.specs.Marks.{mark, call_mark, type_mark, type_of_call, type_of_variable};
ghost use Rattle.cool_names.specs.Meanings.{call_meaning, name_meaning};
ghost use Rattle.cool_names.specs.Scopes.{variable_of, variables};
ghost use Rattle.cool_names.specs.NamingSettings.{IsSound, context};

use crate::declaration::Declaration;
use crate::mark::{Mark, Meaning, Role};
use crate::meaning::{method_meaning, self_meaning, unknown, variable_meaning};
use crate::program::Program;
use cool_classes::{ClassId, MethodRef, Ty};
use cool_rules::{Scope, class_of};
use cool_syntax::{Body, Name, Place, TypeRef};
use std::alloc::AllocError;

/// The program, the class whose feature it is with its attributes, and the expression.
#[derive(Clone, Copy)]
pub(crate) struct NamingSetting<'a, 's> {
    pub(crate) program: Program<'a>,
    pub(crate) class: ClassId,
    pub(crate) attributes: &'s Scope<'a, Declaration<'a>>,
    pub(crate) body: &'a Body,
}

impl<'a, 's> NamingSetting<'a, 's> {
    /// The mark of a variable that is read or assigned to, or of `self`. Returns `Err` only if memory runs out.
    pub(crate) fn variable_mark(
        &self,
        locals: &Scope<'a, Declaration<'a>>,
        role: Role,
        at: Place,
        name: &Name,
    ) -> Result<Mark, AllocError>
        ensures { IfOk result (λ m. m ≡ mark at role name.now (name_meaning (variables locals.now) (variables self.now.attributes.now) name.now)) }
    {
        let alloc = self.program.alloc;
        let meaning = if is_self(name) {
            self_meaning(alloc)?
        } else {
            variable_meaning(alloc, self.variable(locals, name))?
        };
        Ok(Mark {
            at,
            role,
            name: name.copy(alloc)?,
            meaning,
        })
    }

    /// The variable of a name: the latest local one, or else the attribute.
    fn variable(&self, locals: &Scope<'a, Declaration<'a>>, name: &Name) -> Option<Declaration<'a>>
        ensures { option_map variable_of result ≡ option_or (found (variables locals.now) name.now) (found (variables self.now.attributes.now) name.now) }
    {
        match locals.find(name) {
            Some(variable) => Some(variable),
            None => self.attributes.find(name),
        }
    }

    /// The type of a variable, or of `self`, where it is known.
    pub(crate) fn type_of_variable(
        &self,
        locals: &Scope<'a, Declaration<'a>>,
        name: &Name,
    ) -> Option<Ty>
        requires sound { IsSound self.now }
        ensures is_type { IfSome result (IsType self.now.program.table.now) }
        ensures seen { result ≡ type_of_variable (context self.now) (variables locals.now) name.now }
    {
        if is_self(name) {
            return Some(Ty::SelfType);
        }
        match self.variable(locals, name) {
            Some(variable) => self.program.type_named(variable.declared),
            None => None,
        }
    }

    /// The method of a name that the class of a type has, the nearest on its chain.
    fn method(&self, owner: Ty, name: &Name) -> Option<MethodRef>
        requires sound { IsSound self.now }
        requires owner { IsType self.now.program.table.now owner }
        ensures has { IfSome result (HasMethod self.now.program.table.now) }
        ensures method { result ≡ method_of self.now.program.table.now (class_of self.now.class owner) name.now }
    {
        self.program
            .table
            .find_method(class_of(self.class, owner), name)
    }

    /// The type of a call on a receiver of this type, of a method that is looked for in the class of another, where they are known.
    pub(crate) fn type_of_call(
        &self,
        receiver: Option<Ty>,
        owner: Option<Ty>,
        name: &Name,
    ) -> Option<Ty>
        requires sound { IsSound self.now }
        requires receiver { IfSome receiver (IsType self.now.program.table.now) }
        requires owner { IfSome owner (IsType self.now.program.table.now) }
        ensures is_type { IfSome result (IsType self.now.program.table.now) }
        ensures seen { result ≡ type_of_call (context self.now) receiver owner name.now }
    {
        let (Some(object), Some(class)) = (receiver, owner) else {
            return None;
        };
        match self.method(class, name) {
            Some(method) => Some(self.result_on(object, method)),
            None => None,
        }
    }

    /// The type of a call of a method on a receiver of this type.
    fn result_on(&self, receiver: Ty, method: MethodRef) -> Ty
        requires sound { IsSound self.now }
        requires receiver { IsType self.now.program.table.now receiver }
        requires has { HasMethod self.now.program.table.now method }
        ensures is_type { IsType self.now.program.table.now result }
        ensures seen { result ≡ result_on receiver (type_meant self.now.program.table.now (result_of self.now.program.table.now method)) }
    {
        match self.program.table.result(method) {
            Ty::SelfType => receiver,
            Ty::Class(class) => Ty::Class(class),
        }
    }

    /// The mark of a method that is called, by the type whose class has it, if that is known. Returns `Err` only if memory runs out.
    pub(crate) fn call_mark(
        &self,
        at: Place,
        name: &Name,
        owner: Option<Ty>,
    ) -> Result<Mark, AllocError>
        requires sound { IsSound self.now }
        requires owner { IfSome owner (IsType self.now.program.table.now) }
        ensures { IfOk result (λ m. m ≡ call_mark (context self.now) at name.now owner) }
    {
        let alloc = self.program.alloc;
        Ok(Mark {
            at,
            role: Role::Call,
            name: name.copy(alloc)?,
            meaning: self.call_meaning(owner, name)?,
        })
    }

    /// Adds the marks of the class after `@` and of the method that is called. Returns `Err` only if memory runs out.
    pub(crate) fn add_static(
        &self,
        marks: &mut Vec<Mark>,
        at: Place,
        class: &TypeRef,
        name: &Name,
    ) -> Result<(), AllocError>
        requires sound { IsSound self.now }
        ensures { OnOk result (marks.new.items ≡ marks.old.items ++ type_mark self.now.program.table.now self.now.program.definitions.now class.now ∷ call_mark (context self.now) at name.now (type_of_name self.now.program.table.now class.now.name) ∷ []) }
    {
        marks.push(self.program.type_mark(class)?)?;
        let owner = self.program.type_named(&class.name);
        marks.push(self.call_mark(at, name, owner)?)?;
        Ok(())
    }

    /// The meaning of a method's name on an object of a type, if that is known. Returns `Err` only if memory runs out.
    fn call_meaning(&self, owner: Option<Ty>, name: &Name) -> Result<Meaning, AllocError>
        requires sound { IsSound self.now }
        requires owner { IfSome owner (IsType self.now.program.table.now) }
        ensures { IfOk result (λ m. m ≡ call_meaning self.now.program.table.now (option_map (class_of self.now.class) owner) name.now) }
    {
        let alloc = self.program.alloc;
        let Some(class) = owner else {
            return unknown(alloc);
        };
        match self.method(class, name) {
            Some(method) => method_meaning(alloc, self.program.table, method),
            None => unknown(alloc),
        }
    }
}

/// Whether this is the name `self`.
fn is_self(name: &Name) -> bool
    ensures { result ≡ bytes_eq name.now (codes "self") }
{
    name.as_slice() == b"self".as_slice()
}
